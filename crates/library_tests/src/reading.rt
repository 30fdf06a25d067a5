//! Tests of reading: of lines, of problems, of a text with a fault and of lack of memory.

// What is there for callers.
mod callers;

// What is read, and what is refused.
mod faults;
mod lines;
mod problems;

// The seed that hashes names.
mod seeds;

// Lack of memory.
mod memory;
