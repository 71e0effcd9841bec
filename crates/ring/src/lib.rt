// FIPS 203's arithmetic on plain values: coefficients modulo q and polynomials (sections 2.4.4, 2.4.5).
#![tactic(auto)]

mod polynomial;
mod residue;

pub use polynomial::{add_to, map_coefficients, sub_from};
pub use residue::{
    difference, multiple, product, quotient, reduce, reduce_short, reduced_difference, reduced_sum,
    remainder, shoup_quotient,
};
