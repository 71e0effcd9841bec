// Comparison and selection on two shares, for a general count of words.
#![tactic(auto)]

pub mod comparison; // folding of words to one bit
pub mod selection; // one of two words by a bit
