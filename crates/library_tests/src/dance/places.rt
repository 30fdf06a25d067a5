//! What dances answer by places alone.
ghost use Rattle.std.specs.Prelude.{◌≡◌};

use crate::dance::keepers::{links, lists};
use crate::fixtures::read;
use std::alloc::Global;
use std::test::Fail;
use xc_dance::{Dance, Links, Lists};
use xc_input::{Kind, Problem};

/// Three primary items and a secondary one. The first option uses that, the second item and the first.
const TURNED: &[u8] = b"p q r | x\nx:A q p\np r\np x\n";

/// Whether the first option of each primary item's list has that item as its first primary one.
const FIRSTS: [(u32, Option<bool>); 4] = [
    (1, Some(false)),
    (2, Some(true)),
    (3, Some(false)),
    // A secondary item.
    (4, None),
];

/// Whether the first option of a primary item's list holds no primary item before it, if it has an option.
fn is_first<D: Dance>(dance: &D, problem: &Problem, i: u32) -> Option<bool>
    requires { (D.state dance.now).puzzle ≡ problem.now.puzzle }
{
    if i == 0 || i > problem.primary() {
        return None;
    }
    let place = dance.node_below(problem, i, i);
    if place == i {
        return None;
    }
    Some(dance.is_first_at(problem, i, place))
}

/// Whether both keepers say so of an item of the problem.
fn both_say(alloc: Global, text: &[u8], i: u32, wanted: Option<bool>) -> bool {
    let Ok(read) = read(alloc, Kind::Colours, text, 100) else {
        return false;
    };
    let Ok(links) = Links::new(alloc, &read.problem, 0) else {
        return false;
    };
    let Ok(lists) = Lists::new(alloc, &read.problem, 0) else {
        return false;
    };
    is_first(&links, &read.problem, i) == wanted && is_first(&lists, &read.problem, i) == wanted
}

#[test]
fn first_primary_items(rt: HostRuntime) -> Result<(), Fail> {
    for (i, wanted) in FIRSTS.iter() {
        if !both_say(rt.alloc(), TURNED, *i, *wanted) {
            return Err(Fail::new(format_args!("item {i}")));
        }
    }
    Ok(())
}

#[test]
fn links_alone_count_unmoved(rt: HostRuntime) {
    let links = links(rt.alloc(), Kind::Colours, TURNED, 0);
    let lists = lists(rt.alloc(), Kind::Colours, TURNED, 0);
    assert!(rt; matches!(&links, Some(links) if links.counts_unmoved()));
    assert!(rt; matches!(&lists, Some(lists) if !lists.counts_unmoved()));
}
