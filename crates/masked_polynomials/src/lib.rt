// Polynomials on two shares, recorded: groups of coefficients compressed, and outcomes of passes entered. Each function
// is handed the strips from its first mask on.
#![tactic(auto)]

pub mod groups; // groups of coefficients, compressed
pub mod passes; // outcomes of passes that get one share alone
