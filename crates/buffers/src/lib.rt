// Slices of words and coefficients, for the programs.
#![tactic(auto)]

pub mod little_endian; // as bytes, the lowest byte first
pub mod values; // coefficients reduced, words joined by xor
