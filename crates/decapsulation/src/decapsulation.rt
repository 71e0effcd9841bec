// The calls: row 1, row 11 where a split key is used, then one function, told a step number or none.
ghost use Rattle.parameters.specs.Fits.{Fits};
ghost use Rattle.refusals.specs.Refusals.{number};
ghost use Rattle.decapsulation_run.specs.Lent.{input_of};
ghost use Rattle.decapsulation.specs.Calls.{Decapsulated, Traced, DecapsulatedBy, TracedBy};

use crate::lengths::{exact_input, exact_shares};
use decapsulation_run::{Input, decapsulate};
use parameters::{Edition, Parameters};
use refusals::{Answer, Refusal};
use stages::entry_counts::steps;
use tracing::left_of;

// Told no step; what is carried out is counted.
fn decaps_at(
    e: Edition,
    p: Parameters,
    input: &Input,
    limit: u32,
    count: &mut u32,
    k0: &mut [u64],
    k1: &mut [u64],
) -> Answer
    requires { Fits p }
    ensures { Decapsulated e p (input_of input.now) limit count.old k0.old k1.old (number result)
        count.new k0.new k1.new }
{
    let used = *count;
    let exact = exact_input(e, p, input);
    if !(exact & exact_shares(k0.len(), k1.len())) {
        return Err(Refusal::WrongLength);
    }
    if used >= limit {
        return Err(Refusal::LimitReached);
    }
    let mut value: u64 = 0;
    decapsulate(0, e, p, input, k0, k1, &mut value)?;
    *count = used + 1;
    Ok(())
}

// Masked decapsulation for the parameter set of a rank.
pub fn decaps(
    e: Edition,
    rank: u32,
    input: &Input,
    limit: u32,
    count: &mut u32,
    k0: &mut [u64],
    k1: &mut [u64],
) -> Answer
    ensures { DecapsulatedBy e rank (input_of input.now) limit count.old k0.old k1.old (number result)
        count.new k0.new k1.new }
{
    decaps_at(e, Parameters::try_from(rank)?, input, limit, count, k0, k1)
}

// Told a step.
fn trace_at(e: Edition, p: Parameters, input: &Input, step: u64, value: &mut u64) -> Answer
    requires { Fits p }
    ensures { Traced e p (input_of input.now) step value.old (number result) value.new }
{
    if !exact_input(e, p, input) {
        return Err(Refusal::WrongLength);
    }
    let mut k0 = [0u64; 4];
    let mut k1 = [0u64; 4];
    let left = left_of(step, steps(e, p) as u64);
    decapsulate(left, e, p, input, &mut k0, &mut k1, value)
}

// The trace of a step for the parameter set of a rank.
pub fn trace(e: Edition, rank: u32, input: &Input, step: u64, value: &mut u64) -> Answer
    ensures { TracedBy e rank (input_of input.now) step value.old (number result) value.new }
{
    trace_at(e, Parameters::try_from(rank)?, input, step, value)
}
