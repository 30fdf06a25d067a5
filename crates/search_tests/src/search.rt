//! Searches and the moves that they make, walks over solutions, and searches of spans.

mod closing;
mod equal_values;
mod made;
pub mod moves;
mod searching;
mod spanning;
mod visiting;
mod walking;
