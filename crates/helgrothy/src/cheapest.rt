//! The cover that costs least, where each option has a cost, and that none costs less.
//!
//! `costs` has a signed whole number for each option in file order; an option behind its end costs 0. `least` returns
//! the options of the cheapest cover, or `None` where no cover costs less than a limit. Whoever is `Better` gets each
//! cover that is cheaper than those before, and may end the search. `is_least` and `do_all_cost` judge what another
//! solver found: their no says nothing. Prices of items, such as the duals of a linear program, may make an answer come
//! sooner, and any numbers will do; without them the call finds its own.
//!
//! From `cheap.rt` of `least_tests`, where it is run:
//!
//! ```text
//! let mut newest = Newest { cost: ABOVE };
//! let Some(best) = least(alloc, problem, costs, ABOVE, prices, &mut newest)? else {
//!     return Ok(false);
//! };
//! ```

pub use xc_least::{Better, NotLeast, do_all_cost, is_least, least};
