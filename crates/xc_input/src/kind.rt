//! The three kinds of text.

ghost use Rattle.xc_input.specs.Readings.{kind_name};

use std::fmt;

/// What a problem may hold.
#[derive(Clone, Copy, PartialEq, Eq, Hash)]
pub enum Kind {
    /// Primary and secondary items: exact cover, as `dlx1` reads it.
    Plain,
    /// Colours on secondary items besides, as `dlx2` reads it.
    Colours,
    /// Colours, and bounds on primary items, as `dlx3` reads it.
    Bounds,
}

/// By hand, since no contract says what a derived one writes.
impl fmt::Debug for Kind {
    ghost use Rattle.std.specs.Prelude.{Some};

    ghost debug_output = { λ kind. Some (kind_name kind) };

    fn fmt<W: fmt::Write>(&self, f: &mut fmt::Formatter<W>) -> fmt::Result {
        f.write_str(match self {
            Kind::Plain => "Plain",
            Kind::Colours => "Colours",
            Kind::Bounds => "Bounds",
        })
    }
}
