//! Problems of all kinds whose least costs are known: with costs of both signs, without a cover, and with wild prices.
use library_tests::fixtures::{ALONE, COLOURED, SEVEN, THREE_ALIKE, TWICE, Wanted, wrong_row};
use std::alloc::Global;
use xc_input::{Kind, Problem};
use xc_least::{Better, NotLeast, do_all_cost, is_least, least};

/// More than any cover here costs.
const ABOVE: i64 = 1_000_000;

/// What the options of a problem cost, prices of its items, and what a cover costs at least.
struct Cheap(&'static [i64], &'static [i64], Option<i64>);

/// Keeps the cost of the newest cover.
#[derive(Drop)]
struct Newest {
    cost: i64,
}

impl Better for Newest {
    fn better(&mut self, cost: i64, _: &[u32]) -> bool {
        self.cost = cost;
        true
    }
}

/// Four covers.
const SMALL: &[u8] = b"a b c\na\nb\nc\na b\nb c\n";

/// No option has the second item.
const UNHELD: &[u8] = b"a b\na\na\n";

const ROWS: [(Kind, &[u8], Cheap); 18] = [
    (Kind::Plain, SMALL, Cheap(&[3, 3, 3, 4, -5], &[], Some(-2))),
    (Kind::Plain, SMALL, Cheap(&[3, 3, 3, 4, 5], &[], Some(7))),
    (Kind::Plain, SMALL, Cheap(&[2, 2, 2, 9, 9], &[], Some(6))),
    (
        Kind::Plain,
        SMALL,
        Cheap(&[3, 3, 3, 4, -5], &[900, -900, 77], Some(-2)),
    ),
    (Kind::Plain, SMALL, Cheap(&[], &[], Some(0))),
    (
        Kind::Plain,
        SMALL,
        Cheap(&[3, 3, 3, 4, -5, -99], &[1, 2, 3, 4], Some(-2)),
    ),
    (
        Kind::Plain,
        SEVEN,
        Cheap(&[1, 2, 3, 4, 5, 6], &[], Some(10)),
    ),
    (
        Kind::Plain,
        SEVEN,
        Cheap(&[1, 2, 3, 4, 5, 6], &[-1, 2, -3, 4, -5, 6, -7], Some(10)),
    ),
    (Kind::Plain, THREE_ALIKE, Cheap(&[5, 2, 7], &[], Some(2))),
    (Kind::Plain, UNHELD, Cheap(&[5, 2], &[], None)),
    (
        Kind::Colours,
        COLOURED,
        Cheap(&[-70, -3, -70, -4, -70], &[], Some(-7)),
    ),
    (
        Kind::Colours,
        COLOURED,
        Cheap(&[-70, -3, -70, -4, -70], &[9, -9, 9, 50, 50], Some(-7)),
    ),
    (Kind::Bounds, TWICE, Cheap(&[3, 10, 4], &[], Some(7))),
    (Kind::Bounds, TWICE, Cheap(&[-30, 10, 4], &[], Some(-26))),
    (
        Kind::Bounds,
        TWICE,
        Cheap(&[-30, 10, 90], &[-5, 5], Some(-20)),
    ),
    (Kind::Bounds, ALONE, Cheap(&[4, 5], &[], Some(0))),
    (Kind::Bounds, ALONE, Cheap(&[-4, -5], &[], Some(-9))),
    (Kind::Bounds, ALONE, Cheap(&[4, -5], &[100], Some(-5))),
];

/// Whether a cover that costs so is found, and none that costs less.
fn is_found(alloc: Global, problem: &Problem, row: &Cheap, cost: i64) -> Result<bool, NotLeast> {
    let (costs, prices) = (row.0, row.1);
    let mut newest = Newest { cost: ABOVE };
    let Some(best) = least(alloc, problem, costs, ABOVE, prices, &mut newest)? else {
        return Ok(false);
    };
    let below = least(alloc, problem, costs, cost, prices, &mut newest)?;
    Ok(
        newest.cost == cost
            && below.is_none()
            && is_least(alloc, problem, costs, best.as_slice(), prices)?
            && do_all_cost(alloc, problem, costs, cost, prices)?
            && !do_all_cost(alloc, problem, costs, cost + 1, prices)?,
    )
}

/// Whether no cover is found.
fn is_none_found(alloc: Global, problem: &Problem, row: &Cheap) -> Result<bool, NotLeast> {
    let mut newest = Newest { cost: ABOVE };
    let found = least(alloc, problem, row.0, ABOVE, row.1, &mut newest)?;
    Ok(found.is_none() && newest.cost == ABOVE)
}

impl Wanted for Cheap {
    fn is_so(&self, alloc: Global, problem: &Problem) -> bool {
        let so = match self.2 {
            Some(cost) => is_found(alloc, problem, self, cost),
            None => is_none_found(alloc, problem, self),
        };
        so == Ok(true)
    }
}

#[test]
fn least_costs(rt: HostRuntime) {
    assert_eq!(rt; wrong_row(rt.alloc(), &ROWS), None);
}
