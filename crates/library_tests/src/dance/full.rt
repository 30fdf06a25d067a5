//! A trail that is full.
use crate::dance::keepers::{are_lists, links, lists};
use crate::fixtures::SMALL;
use xc_dance::{Dance, Full, Move};
use xc_input::Kind;

/// Whether a keeper of the two items without room is full for a legal move, and stays as it was.
fn is_full<D: Dance + Drop>(made: Option<D>) -> bool {
    match made {
        Some(mut dance) => {
            dance.can(&Move::Cover(2))
                && dance.room() == 0
                && dance.can(&Move::Cover(1))
                && dance.apply(Move::Cover(1)) == Err(Full)
                && dance.moves().is_empty()
                && are_lists(&dance, 2, &[&[1, 2], &[2]])
        }
        None => false,
    }
}

#[test]
fn no_move_without_room(rt: HostRuntime) {
    assert!(rt; is_full(links(rt.alloc(), Kind::Plain, SMALL, 0)));
    assert!(rt; is_full(lists(rt.alloc(), Kind::Plain, SMALL, 0)));
}
