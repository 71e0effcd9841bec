// Masked decapsulation and its trace, of either edition: the outward calls.
#![tactic(auto)]

mod decapsulation; // the calls
mod lengths; // row 1

pub use decapsulation::{decaps, trace};
pub use decapsulation_run::Input;
pub use split_key::SplitKey;
