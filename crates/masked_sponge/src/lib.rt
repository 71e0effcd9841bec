// The sponge on two shares, recorded, general in rate and suffix.
#![tactic(auto)]

pub mod absorb; // a message taken in on two shares
pub mod squeeze; // output given out on two shares
