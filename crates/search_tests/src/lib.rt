//! Tests of `xc_search` and `xc_list`, with what these export of the libraries below, and the programs of the first
//! page of `helgrothy`. They are apart from `library_tests`, which is proved beside these libraries.
#![tactic(auto)]

#[cfg(test)]
mod examples;
#[cfg(test)]
mod listing;
#[cfg(test)]
mod search;
