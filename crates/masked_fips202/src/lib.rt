// SHA3-512 and SHAKE256 on two shares.
#![tactic(auto)]

pub mod masked_hash; // the two hashes
pub mod masked_words; // the two hashes, recorded, with output in words
pub mod shared_input; // a hash's input in two shares
mod sponge; // the sponge, its output in bytes or in words

pub use masked_hash::{masked_sha3_512, masked_shake256};
