//! Tests of `refutation`, `xc_numbers` and `xc_none`. They use public calls alone, so no library is proved a second
//! time for them.
#![tactic(auto)]

#[cfg(test)]
mod judged;
#[cfg(test)]
mod numbers;
#[cfg(test)]
mod refuting;
#[cfg(test)]
mod weights;
#[cfg(test)]
mod written;
