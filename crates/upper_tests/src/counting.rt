//! Numbers of any size, how many solutions problems have, and solutions by their numbers.

mod alone;
mod numbers;
mod problems;
