// K-PKE (FIPS 203, section 5).
#![tactic(auto)]

pub mod encrypt;
pub mod key_making;
pub mod matrix; // the matrix from its streams
pub mod noise;
