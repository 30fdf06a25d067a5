//! Tests of moves and their undoing, over linked tables and live lists.

// Helpers.
mod costs;
mod keepers;

// What is there for callers.
mod callers;
mod places;

// Memory, ample and scarce.
mod memory;

// Moves and their undoing.
mod full;
mod inverse;
mod same;
mod tables;
