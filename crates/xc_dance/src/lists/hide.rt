//! What a move takes out of the lists.
ghost use Rattle.std.specs.Prelude.{◌≡◌, ◌-◌, ◌<◌, ◌≤◌, ◌==◌, ◌&&◌, not, [], ◌∷◌, length, filter, if◌then◌else◌};
ghost use Rattle.xc_input.specs.Problem.{IsItem, IsOption, colour_in};
ghost use Rattle.xc_moves.specs.Moves.{IsLegal, is_open, is_other_colour};
ghost use Rattle.xc_dance.specs.inner.Lists.{list_at, lose, keeps_colour, AreLists, lists_after};

use crate::lists::table::Table;
use crate::lists::trail::Trail;
use crate::lists::undo_log::OptionLists;
use xc_input::Use;
use xc_moves::Move;

/// Takes out of the lists what the move takes out: its options are hidden in the lists of their other items.
pub(crate) fn hide_for(standing: &Trail, live: &mut OptionLists, m: Move)
    requires legal { IsLegal standing.now.puzzle standing.now.trail m }
    requires lists { live.old.lists ≡ lists_after standing.now.puzzle standing.now.trail }
    ensures { live.new ≡ record live.old { lists = lists_after standing.now.puzzle (m ∷ standing.now.trail) } }
{
    match m {
        Move::Cover(item) => hide_options(standing, live, item, None),
        Move::Purify(item, colour) => hide_options(standing, live, item, Some(colour)),
        Move::Tweak(item) => tweak(standing, live, item),
        Move::Spend(_) => {}
    }
}

/// Takes off the first option of the item's list.
fn tweak(standing: &Trail, live: &mut OptionLists, item: u32)
    requires item { IsItem standing.now.puzzle item }
    requires lists { live.old.lists ≡ lists_after standing.now.puzzle standing.now.trail }
    requires option { 0 < length (list_at live.old.lists (item - 1)) }
    ensures { live.new ≡ record live.old
        { lists = lists_after standing.now.puzzle (Move.Tweak item ∷ standing.now.trail) } }
{
    let first = live.list(item - 1)[0];
    hide_if_open(standing, live, item, first);
    live.take_out(item - 1, first);
}

/// Every open item but `item` loses the options of `item`'s list, but those that have for it the
/// colour kept.
fn hide_options(standing: &Trail, live: &mut OptionLists, item: u32, kept: Option<u32>)
    requires item { IsItem standing.now.puzzle item }
    requires lists { AreLists standing.now.puzzle live.old.lists }
    ensures { live.new ≡ record live.old {
      lists = lose standing.now.trail item
          (filter (λ o. not (keeps_colour standing.now.puzzle item kept o)) (list_at live.old.lists (item - 1)))
          live.old.lists;
    } }
{
    for at in 0..live.list(item - 1).len() {
        let option = live.list(item - 1)[at];
        if !keeps(standing.table(), item, kept, option) {
            hide(standing, live, item, option);
        }
    }
}

/// Every open item but `item` loses the option.
fn hide(standing: &Trail, live: &mut OptionLists, item: u32, option: u32)
    requires option { IsOption standing.now.puzzle option }
    requires lists { AreLists standing.now.puzzle live.old.lists }
    ensures { live.new ≡ record live.old { lists = lose standing.now.trail item (option ∷ []) live.old.lists } }
{
    for u in standing.table().uses(option) {
        if loses(standing, u.item, item) {
            live.take_out(u.item - 1, option);
        }
    }
}

/// Every other open item loses the option, if `item` is open.
fn hide_if_open(standing: &Trail, live: &mut OptionLists, item: u32, option: u32)
    requires item { IsItem standing.now.puzzle item }
    requires option { IsOption standing.now.puzzle option }
    requires lists { AreLists standing.now.puzzle live.old.lists }
    ensures { live.new ≡ record live.old {
      lists = if is_open item standing.now.trail then lose standing.now.trail item (option ∷ []) live.old.lists else
          live.old.lists;
    } }
{
    if standing.is_open(item) {
        hide(standing, live, item, option);
    }
}

/// Whether the item loses the options that are hidden from `hider` on.
fn loses(standing: &Trail, item: u32, hider: u32) -> bool
    requires { IsItem standing.now.puzzle item }
    ensures { result ≡ (not (item == hider) && is_open item standing.now.trail) }
{
    item != hider && standing.is_open(item)
}

/// Whether the option has for the item the colour that is kept.
fn keeps(table: &Table, item: u32, kept: Option<u32>, option: u32) -> bool
    requires { IsOption table.now option }
    ensures { result ≡ keeps_colour table.now item kept option }
{
    match kept {
        Some(colour) => has_colour(table.uses(option), item, colour),
        None => false,
    }
}

fn has_colour(uses: &[Use], item: u32, colour: u32) -> bool
    ensures { result ≡ not (is_other_colour colour (colour_in uses.now item)) }
{
    for u in uses {
        if u.item == item {
            return u.colour == colour;
        }
    }
    false
}
