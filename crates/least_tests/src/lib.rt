//! Tests of `xc_least`. They use public calls alone, so that no library is proved a second time for them.
#![tactic(auto)]

#[cfg(test)]
mod cheap;
#[cfg(test)]
mod refused;
