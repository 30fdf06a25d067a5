//! Tests of `natural`, `xc_count` and `xc_tools`, by public calls alone, and the public surface of all libraries
//! (`surface`). They are apart from `library_tests`, so that it is proved beside these libraries.
#![tactic(auto)]

// Counts of covers, and numbers of any size.
#[cfg(test)]
mod counting;
#[cfg(test)]
mod examples;

// Whole runs, the judge, the system's streams.
#[cfg(test)]
mod closed_streams;
#[cfg(test)]
mod runs;
#[cfg(test)]
mod seeds;
#[cfg(test)]
mod streams;
#[cfg(test)]
mod told;

// What callers were promised.
#[cfg(test)]
mod surface;
