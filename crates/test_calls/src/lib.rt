// Test cases carried out: the outward calls on lent parts of a memory. crates/test_cases/README.md has the records.
#![tactic(auto)]

mod calls; // which call a record makes
mod cases; // the records of a case, one after the other
mod decapsulations; // decapsulation and trace
mod hashes; // hashes, plain and masked
mod keys; // key making, encapsulation and sampling
mod left; // what a call leaves
mod splits; // import and refreshing

pub use cases::case;
