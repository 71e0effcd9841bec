// The number-theoretic transform of polynomials, its inverse, and products of transforms (FIPS 203, section 4.3).
#![tactic(auto)]

mod multiply;
mod tables;
mod transform;

pub use multiply::multiply_add;
pub use transform::{inverse_ntt, ntt};
