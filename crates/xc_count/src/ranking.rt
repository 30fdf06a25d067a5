//! The ranks of items, by which their marks stand in a key.
ghost use Rattle.std.specs.Prelude.{◌≡◌, true, IfOk};
ghost use Rattle.xc_count.specs.inner.Plans.{IsRanking};

use crate::errors::CountError;
use crate::order::places;
use crate::plan::Ranking;
use std::alloc::Global;

/// Whether each of so many items has a rank, and is the item of it.
fn is_ranking(ranks: &[u32], items: &[u32], many: u32) -> bool
    ensures { result ≡ true → IsRanking many ranks.now items.now }
{
    if ranks.len() != many as usize {
        return false;
    }
    for i in 0..many {
        let rank = ranks[i as usize] as usize;
        if rank >= items.len() || items[rank] != i + 1 {
            return false;
        }
    }
    true
}

/// The ranking by the items' numbers.
fn by_number(alloc: Global, many: u32) -> Result<Ranking, CountError>
    ensures { IfOk result (λ r. IsRanking many r.ranks.items r.items.items) }
{
    let mut ranks = Vec::new(alloc);
    let mut items = Vec::new(alloc);
    for i in 0..many {
        ranks.push(i)?;
        items.push(i + 1)?;
    }
    Ok(Ranking { ranks, items })
}

/// The ranking in which so many items stand in this order; by their numbers where it leaves one out.
pub fn rank_items(alloc: Global, items: Vec<u32>, many: u32) -> Result<Ranking, CountError>
    ensures { IfOk result (λ r. IsRanking many r.ranks.items r.items.items) }
{
    let ranks = places(alloc, many, items.as_slice())?;
    if is_ranking(ranks.as_slice(), items.as_slice(), many) {
        return Ok(Ranking { ranks, items });
    }
    by_number(alloc, many)
}
