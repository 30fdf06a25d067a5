//! The options of each primary item, those with the smallest surplus first.
use crate::decided::surplus_of;
use std::alloc::{AllocError, Global};
use xc_input::Problem;

/// The options in the order of their surpluses.
fn in_order(alloc: Global, surplus: &[u64], options: u32) -> Result<Vec<u32>, AllocError> {
    let mut pairs: Vec<(u64, u32)> = Vec::new(alloc);
    for place in 0..options {
        let option = place + 1;
        pairs.push((surplus_of(surplus, option), option))?;
    }
    pairs.sort()?;
    let mut order = Vec::new(alloc);
    for pair in &pairs {
        order.push(pair.1)?;
    }
    Ok(order)
}

/// For each primary item in order its options.
pub fn lists_of(
    alloc: Global,
    problem: &Problem,
    surplus: &[u64],
) -> Result<Vec<Vec<u32>>, AllocError> {
    let order = in_order(alloc, surplus, problem.options())?;
    let mut lists: Vec<Vec<u32>> = Vec::new(alloc);
    for _ in 0..problem.primary() {
        lists.push(Vec::new(alloc))?;
    }
    for option in &order {
        if let Some(uses) = problem.get_option(*option) {
            for u in uses {
                let place = u.item as usize;
                if place > 0 && place <= lists.len() {
                    lists[place - 1].push(*option)?;
                }
            }
        }
    }
    Ok(lists)
}
