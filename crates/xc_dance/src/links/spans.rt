//! Where the option of each node is, as contracts speak of it. It takes no memory: a walk finds the ends by the
//! spacers, Knuth's idea in 7.2.2.1 (in his paper of 2000 the nodes of an option were a ring). Spans that are kept
//! would take 8 bytes a node, and a load at another place for each option that is hidden.
ghost use Rattle.std.specs.Prelude.{◌≡◌};
ghost use Rattle.xc_dance.specs.inner.Tables.{spans_of};

use std::marker::Model;
use std::snapshot::Snapshot;
use xc_input::Problem;

/// The spans of a problem's nodes. A clause sees the list of them.
#[derive(Drop)]
pub(crate) struct Spans {
    known: Snapshot<Problem>,
}

impl Model for Spans {
    ghost use Rattle.std.specs.Prelude.{List};
    ghost use Rattle.xc_dance.specs.inner.Tables.{Span, spans_of};

    ghost Value = { List Span };

    ghost view = { λ a. spans_of a.known.value.puzzle };
}

impl Spans {
    pub(crate) fn of(problem: &Problem) -> Spans
        ensures { result ≡ spans_of problem.now.puzzle }
    {
        Spans {
            known: Snapshot::of(problem),
        }
    }
}
