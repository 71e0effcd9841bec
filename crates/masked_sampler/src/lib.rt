// The binomial distribution on two shares, for a general width.
#![tactic(auto)]

pub mod coefficient; // bit to coefficient
pub mod sampler; // the binomial distribution
