//! What goes on beside a sweep.
ghost use Rattle.std.specs.Prelude.{◌≡◌, Option, None};
ghost use Rattle.xc_input.specs.Problem.{Puzzle};

/// What goes on beside a sweep: a search that has turns, or nothing.
pub trait Beside {
    /// The problem of the search, if there is one.
    ghost searched: { Self → Option Puzzle };

    /// Goes on if that is due, and returns whether it has come to its end: then no sweep is needed any more. `tried` is
    /// the work since it was asked last, beside that of adding to a layer, and `added` all that of the layer.
    fn ends_first(&mut self, tried: u64, added: u64) -> bool
        ensures { searched self.new ≡ searched self.old };

    /// Notes that a layer is whole, and how much work it was to add to it.
    fn note_layer(&mut self, added: u64)
        ensures { searched self.new ≡ searched self.old };
}

/// No search.
#[derive(Drop)]
pub struct Nothing;

impl Beside for Nothing {
    ghost searched = { λ _. None };

    #[inline(always)]
    fn ends_first(&mut self, _: u64, _: u64) -> bool {
        false
    }

    fn note_layer(&mut self, _: u64) {}
}
