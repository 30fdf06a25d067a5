//! Whether clauses can't all be true, judged by the steps that a SAT engine writes.
#![tactic(auto)]

mod answer;
mod binary;
mod clause;
mod derivation;
mod index;
mod literal;
mod proof_bytes;
mod propagation;
mod refuting;
mod steps;
mod text;
mod trail;
mod watches;

pub use answer::Answer;
pub use literal::negated;
pub use refuting::refute;
