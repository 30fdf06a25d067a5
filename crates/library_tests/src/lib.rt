//! Tests of `xc_input`, `xc_dance` and `xc_words`, with what these export of the libraries below, a module for each.
//! They use public calls alone, so no library is proved a second time for them. `search_tests` and `upper_tests` have
//! those of the other libraries.
#![tactic(auto)]

#[cfg(test)]
mod bounded;
#[cfg(test)]
mod dance;
pub mod fixtures;
#[cfg(test)]
mod reading;
#[cfg(test)]
mod words;
