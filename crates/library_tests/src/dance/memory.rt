//! Memory, ample and scarce: nothing gives up that needn't.
use crate::dance::keepers::{links, lists};
use crate::fixtures::SMALL;
use std::test::Fail;
use xc_dance::Dance;
use xc_input::Kind;

/// Rooms for moves, with the room of a keeper that is made for so many. For most moves no machine has one.
const ROOMS: [(usize, Option<usize>); 4] = [
    (0, Some(0)),
    (2_000_000, Some(2_000_000)),
    (usize::MAX / 64, None),
    (usize::MAX, None),
];

/// The room of a keeper, if one was made.
fn room_of<D: Dance + Drop>(made: Option<D>) -> Option<usize> {
    match made {
        Some(dance) => Some(dance.room()),
        None => None,
    }
}

#[test]
fn there_is_room_or_no_memory(rt: HostRuntime) -> Result<(), Fail> {
    for (row, (room, wanted)) in ROOMS.iter().enumerate() {
        if room_of(links(rt.alloc(), Kind::Plain, SMALL, *room)) != *wanted
            || room_of(lists(rt.alloc(), Kind::Plain, SMALL, *room)) != *wanted
        {
            return Err(Fail::new(format_args!("row {row}")));
        }
    }
    Ok(())
}
