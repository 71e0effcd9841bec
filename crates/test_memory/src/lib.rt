// The memory that test cases work on: lent buffers are parts of it. Records change it and say what must hold of it;
// crates/test_cases/README.md has them.
#![tactic(auto)]

mod changes; // records that change the memory
mod elements; // coefficients and words as bytes
mod kinds; // what a record does
mod monte_carlo; // a turn of NIST's Monte Carlo test
mod wants; // records that say what must hold
pub mod failure; // why a record doesn't hold
pub mod hashes; // the hashes by their numbers
pub mod memory; // its parts, and numbers in it
pub mod record; // a record's operands, and records one after the other

pub use kinds::Kind;
