//! What `{:?}` shows of a keeper: how many moves are on the trail, and the room. Its tables aren't shown.
ghost use Rattle.std.specs.Prelude.{◌++◌, codes, length};
ghost use Rattle.std.specs.Fmt.{decimal};

use crate::{Links, Lists};
use std::fmt;
use xc_moves::Dance;

impl fmt::Debug for Links {
    ghost use Rattle.std.specs.Prelude.{Some};

    ghost debug_output = { λ d. Some (codes "Links { moves: " ++ decimal (length d.trail)
        ++ codes ", room: " ++ decimal d.room ++ codes " }") };

    fn fmt<W: fmt::Write>(&self, f: &mut fmt::Formatter<W>) -> fmt::Result {
        let moves = self.moves().len();
        let room = self.room();
        write!(f, "Links {{ moves: {moves}, room: {room} }}")
    }
}

impl fmt::Debug for Lists {
    ghost use Rattle.std.specs.Prelude.{Some};

    ghost debug_output = { λ d. Some (codes "Lists { moves: " ++ decimal (length d.trail)
        ++ codes ", room: " ++ decimal d.room ++ codes " }") };

    fn fmt<W: fmt::Write>(&self, f: &mut fmt::Formatter<W>) -> fmt::Result {
        let moves = self.moves().len();
        let room = self.room();
        write!(f, "Lists {{ moves: {moves}, room: {room} }}")
    }
}
