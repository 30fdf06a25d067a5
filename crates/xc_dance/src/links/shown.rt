//! What tables show: any cell, and whether two tables are the same.
ghost use Rattle.std.specs.Prelude.{◌≡◌, ◌↔◌, option_map, pos, IsTrue};
ghost use Rattle.xc_dance.specs.inner.Tables.{color_read, top_read};
ghost use Rattle.xc_dance.specs.Same.{IsSame};

use crate::links::Links;
use crate::links::cells::{MARK, SPACER};
use crate::links::field::Field;
use xc_moves::Move;

impl Links {
    ghost use Rattle.xc_dance.specs.Fields.{field_of};

    /// Whether all fields and the trails are equal.
    pub fn same(&self, other: &Links) -> bool
        ensures { IsTrue result ↔ IsSame self.now.puzzle self.now.trail other.now.puzzle other.now.trail }
    {
        self.items.same(&other.items)
            && self.nodes.same(&other.nodes)
            && same_moves(&self.trail, &other.trail)
            && same_numbers(&self.taken, &other.taken)
    }

    /// What is in a cell; None where there is no such cell.
    pub fn cell(&self, field: Field, place: u32) -> Option<i64>
        ensures { result ≡ field_of self.now.puzzle self.now.trail field place }
    {
        match field {
            Field::Llink => natural(self.items.read_llink(place)),
            Field::Rlink => natural(self.items.read_rlink(place)),
            Field::Bound => {
                if place == 0 {
                    None
                } else {
                    natural(self.items.read_bound(place))
                }
            }
            Field::Slack => {
                if place == 0 {
                    None
                } else {
                    natural(self.items.read_slack(place))
                }
            }
            Field::Top => signed_top(self.nodes.read_top(place)),
            Field::Ulink => natural(self.nodes.read_ulink(place)),
            Field::Dlink => natural(self.nodes.read_dlink(place)),
            Field::Color => {
                // An item's own node shows its cell as it is, so a colour that is the mark's number needs no rule.
                if place <= self.fixed.items() {
                    natural(self.nodes.read_color(place))
                } else {
                    signed_color(self.nodes.read_color(place))
                }
            }
        }
    }
}

fn same_moves(moves: &[Move], others: &[Move]) -> bool
    ensures { IsTrue result ↔ (moves.now ≡ others.now) }
{
    moves == others
}

fn same_numbers(numbers: &[u32], others: &[u32]) -> bool
    ensures { IsTrue result ↔ (numbers.now ≡ others.now) }
{
    numbers == others
}

/// A cell as it is.
fn natural(cell: Option<u32>) -> Option<i64>
    ensures { result ≡ option_map (λ v. pos v) cell }
{
    cell.map(|v| i64::from(v))
}

/// A colour cell.
fn signed_color(cell: Option<u32>) -> Option<i64>
    ensures { result ≡ option_map color_read cell }
{
    cell.map(|v| if v == MARK { -1 } else { i64::from(v) })
}

/// A TOP cell.
fn signed_top(cell: Option<u32>) -> Option<i64>
    ensures { result ≡ option_map top_read cell }
{
    cell.map(|v| {
        if v < SPACER {
            i64::from(v)
        } else {
            -i64::from(v - SPACER)
        }
    })
}
