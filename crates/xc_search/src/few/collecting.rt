//! The open items and the options that are left.
ghost use Rattle.std.specs.Prelude.{◌≡◌, ◌≤◌, ◌⊎◌, ℕ, length, take, IfSome};
ghost use Rattle.xc_input.specs.Problem.{IsValid};
ghost use Rattle.xc_moves.specs.Moves.{AreLegal, IsOpenPrimary, listed, open_items};
ghost use Rattle.xc_search.specs.inner.Few.{collected};

use xc_input::Problem;
use xc_moves::Dance;
use xc_words::MOST;

/// The open items.
#[derive(Clone, Copy)]
pub enum Items {
    /// So many.
    All(usize),
    /// One has no options.
    Dead,
    /// More than are counted by words, by so many, up to a thousand; or their lists are too long.
    TooMany(usize),
}

/// The open items, if they are few and their lists have no more than `room` options in all.
pub fn collect_items<D: Dance>(dance: &D, into: &mut [u32; 64], room: usize) -> Items
    ensures all { (n : ℕ) → result ≡ Items.All n → (n ≤ 64)
        × (take n into.new ≡ open_items (D.state dance.now).puzzle (D.state dance.now).trail) }
    ensures dead { result ≡ Items.Dead → (i : ℕ) × IsOpenPrimary (D.state dance.now).puzzle (D.state dance.now).trail i
        × (length (listed (D.state dance.now).puzzle (D.state dance.now).trail i) ≡ 0) }
{
    let mut items: usize = 0;
    let mut total: usize = 0;
    let mut at = 0;
    while let Some(i) = dance.open_after(at) {
        let len = dance.len(i) as usize;
        if len == 0 {
            return Items::Dead;
        }
        total += len;
        if items == MOST || len > MOST || total > room {
            return Items::TooMany(beside(dance, i, items));
        }
        into[items] = i;
        items += 1;
        at = i;
    }
    Items::All(items)
}

/// How many items are open from this one on, up to a thousand, beside those for which there is room after so many.
pub fn beside<D: Dance>(dance: &D, from: u32, items: usize) -> usize
    requires { (from ≡ 0) ⊎ IsOpenPrimary (D.state dance.now).puzzle (D.state dance.now).trail from }
{
    let mut at = from;
    let mut seen = items;
    while seen < 1000 {
        match dance.open_after(at) {
            None => break,
            Some(next) => at = next,
        }
        seen += 1;
    }
    seen.saturating_sub(MOST)
}

/// The options that are left, if they are few: each is met in the list of its first primary item.
pub fn collect_options<D: Dance>(
    dance: &D,
    problem: &Problem,
    into: &mut [u32; 64],
) -> Option<usize>
    requires same { (D.state dance.now).puzzle ≡ problem.now.puzzle }
    requires valid { IsValid problem.now.puzzle }
    requires legal { AreLegal problem.now.puzzle (D.state dance.now).trail }
    ensures few { IfSome result (λ n. n ≤ 64) }
    ensures within { IfSome result (λ n. n ≤ length into.new) }
    ensures collected { IfSome result (λ n. take n into.new ≡ collected problem.now.puzzle (D.state dance.now).trail
        (open_items problem.now.puzzle (D.state dance.now).trail)) }
{
    let mut options: usize = 0;
    let mut at = 0;
    while let Some(i) = dance.open_after(at) {
        let mut place = dance.node_below(problem, i, i);
        while place != i {
            if dance.is_first_at(problem, i, place) {
                let x = dance.option_of(problem, i, place);
                if options == MOST {
                    return None;
                }
                into[options] = x;
                options += 1;
            }
            place = dance.node_below(problem, i, place);
        }
        at = i;
    }
    Some(options)
}
