//! Runs, what they list and how they end; digests, texts and spans; and the test of a set of options.

mod covers;
mod digests;
mod equal_values;
mod moves;
mod own_sink;
mod runs;
mod spans;
mod texts;
