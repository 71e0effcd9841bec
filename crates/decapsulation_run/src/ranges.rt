// Rows 5 to 7: the masks' range, the shares' range, and the streams that the matrix is made of.
ghost use Rattle.decapsulation_run.specs.Lent.{input_of};
ghost use Rattle.decapsulation_run.specs.Ranges.{RangesInput, RangesTested};

use crate::input::Input;
use kpke::matrix::expand;
use parameters::{Parameters, vector_bytes};
use refusals::conditions::{both_reduced, reduced};
use refusals::{Answer, Refusal};

// Where none refuses, a holds the matrix A-hat.
pub fn range_rows(p: Parameters, input: &Input, a: &mut [u16]) -> Answer
    requires { RangesInput p input.now.key.public.now a.old }
    ensures { RangesTested p (input_of input.now) result a.new }
{
    let rho = vector_bytes(p);
    let end = rho + 32;
    if !reduced(input.coeffs) {
        return Err(Refusal::MaskRange);
    }
    if !both_reduced(input.key.s0, input.key.s1) {
        return Err(Refusal::ShareRange);
    }
    expand(&input.key.public[rho..end], p.k, a)
}
