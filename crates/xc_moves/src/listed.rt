//! The options of an item's list, one after another.
ghost use Rattle.std.specs.Prelude.{◌≡◌, ◌⊎◌, Contains};
ghost use Rattle.std.specs.Iterator.{YieldsFirst, item_count};
ghost use Rattle.xc_input.specs.Problem.{IsItem};
ghost use Rattle.xc_moves.specs.Moves.{listed_numbers, next_above};

use crate::dance::Dance;
use std::marker::Model;

/// The options of an item's list that are still to come, by their numbers, in file order. The dance is
/// borrowed meanwhile, so no move is made; a search, which moves at each option, goes by `node_below`.
#[derive(Drop)]
pub struct Listed<'a, D: Dance> {
    dance: &'a D,
    item: u32,
    /// The option that came last; 0 before the first one.
    last: u32,
}

impl<'a, D: Dance> Model for Listed<'a, D> {
    ghost use Rattle.std.specs.Prelude.{ℕ, ◌≡◌, ◌⊎◌, List, Contains, filter, nat_lt};
    ghost use Rattle.xc_input.specs.Problem.{IsItem};
    ghost use Rattle.xc_moves.specs.Moves.{listed_numbers};

    ghost Value = { List ℕ };

    ghost view = { λ s. filter (λ o. nat_lt s.last o)
        (listed_numbers (D.state s.dance.now).puzzle (D.state s.dance.now).trail s.item) };

    ghost invariant = { λ s. record {
      item : IsItem (D.state s.dance.now).puzzle s.item;
      last : (s.last ≡ 0)
          ⊎ Contains (listed_numbers (D.state s.dance.now).puzzle (D.state s.dance.now).trail s.item) s.last;
    } };
}

/// The options of the item's list, as it is.
pub fn list_of<'a, D: Dance>(dance: &'a D, i: u32) -> Listed<'a, D>
    requires { IsItem (D.state dance.now).puzzle i }
    ensures { result ≡ listed_numbers (D.state dance.now).puzzle (D.state dance.now).trail i }
{
    Listed {
        dance,
        item: i,
        last: 0,
    }
}

/// The option after `o` in the item's list, or the first one where `o` is 0.
fn after<D: Dance>(dance: &D, i: u32, o: u32) -> Option<u32>
    requires item { IsItem (D.state dance.now).puzzle i }
    requires listed { (o ≡ 0) ⊎ Contains (listed_numbers (D.state dance.now).puzzle (D.state dance.now).trail i) o }
    ensures { result ≡ next_above o (listed_numbers (D.state dance.now).puzzle (D.state dance.now).trail i) }
{
    if o == 0 {
        dance.first(i)
    } else {
        dance.below(i, o)
    }
}

impl<'a, D: Dance> Iterator for Listed<'a, D> {
    type Item = u32;

    ghost next_gives = { YieldsFirst (λ s. s) };

    ghost remaining = { item_count (λ s. s) };

    fn next(&mut self) -> Option<u32> {
        let next = after(self.dance, self.item, self.last);
        match next {
            Some(o) => {
                self.last = o;
                next
            }
            None => None,
        }
    }
}
