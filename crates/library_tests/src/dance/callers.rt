//! What is there for callers: errors and values in words.
use crate::dance::keepers::links;
use crate::fixtures::{SEVEN, read};
use std::alloc::Global;
use std::fmt::Debug;
use xc_dance::{Full, Memory};
use xc_input::Kind;

/// Whether the errors and a value are shown so.
fn are_shown<D: Debug + Drop>(alloc: Global, value: Option<D>, wanted: &str) -> bool {
    match format!(in alloc; "{Memory}, {Full}, {value:?}") {
        Ok(shown) => shown.as_str() == wanted,
        Err(_) => false,
    }
}

#[test]
fn errors_and_values_in_words(rt: HostRuntime) {
    let links = links(rt.alloc(), Kind::Plain, SEVEN, 1);
    let wanted = "out of memory, no room for another move, Some(Links { moves: 0, room: 1 })";
    assert!(rt; are_shown(rt.alloc(), links, wanted));
    let read = read(rt.alloc(), Kind::Plain, SEVEN, 100).ok();
    let wanted = "out of memory, no room for another move, \
                  Some(Read { problem: Problem { items: 7, primary: 7, options: 6, uses: 16 }, ignored: [] })";
    assert!(rt; are_shown(rt.alloc(), read, wanted));
}
