// One coefficient of the centred binomial distribution from 2 eta bits in two shares.
ghost use Rattle.std.specs.Prelude.{◌≡◌, ◌*◌, ◌-◌, ◌<◌, length, get_or};
ghost use Rattle.masked_sampler.specs.Coefficient;
ghost use Rattle.masked_sampler.specs.Coefficient.{conversions, sums, sampler_coeffs};
ghost use Rattle.masked_sampler.specs.Bit.{bit_of};
ghost use Rattle.masked_sampler.specs.Lent.{SamplerLent, TermsLent};
ghost use Rattle.worksheet.specs.SharedList.{shared_list};
ghost use Rattle.worksheet.specs.Zip.{zip};
ghost use Rattle.worksheet.specs.Prog.{coeff};
ghost use Rattle.worksheet.specs.Ran.{Makes, Draws};
ghost use Rattle.worksheet.specs.Sharing.{shares};

use crate::coefficient::{bit_of, bit_to_coeff, enter_sum};
use worksheet::{Entered, Recorder, Shared, Shares};

fn weight(eta: usize, j: usize) -> u16
    ensures { result ≡ Coefficient.weight eta j }
{
    if j < eta {
        return 1;
    }
    3328
}

// The terms, of share 0 in s0 and of share 1 in s1.
fn convert_bits(
    rec: Recorder,
    eta: usize,
    b: Shares,
    cs: &[u16],
    s0: &mut [u16],
    s1: &mut [u16],
) -> Recorder
    requires { TermsLent eta cs.now (shared_list s0.old s1.old) }
    ensures { Draws coeff (sampler_coeffs eta) (conversions eta (bit_of b)) rec cs.now
        (zip (2 * eta) (shared_list s0.new s1.new)) result }
{
    let mut rec = rec;
    // By place, as the definition's turns are: bits, weights, masks and both shares are walked side by side.
    for j in 0..2 * eta {
        let z = bit_to_coeff(rec, weight(eta, j), bit_of(b, j), cs[j]);
        s0[j] = z.value.s0;
        s1[j] = z.value.s1;
        rec = z.rec;
    }
    rec
}

// The sum of the first n + 1 terms of one share.
fn sum_terms(rec: Recorder, n: usize, x: &[u16]) -> Entered<u16>
    requires { n < length x.now }
    ensures { Makes (sums n (λ j. get_or x.now j 0)) rec result.value result.rec }
{
    let mut rec = rec;
    let mut s = x[0];
    for y in &x[1..n + 1] {
        let e = enter_sum(rec, s, *y);
        s = e.value;
        rec = e.rec;
    }
    Entered { value: s, rec }
}

pub fn sampler(rec: Recorder, eta: usize, b: Shares, cs: &[u16]) -> Entered<Shared<u16>>
    requires { SamplerLent eta cs.now }
    ensures { Draws coeff (sampler_coeffs eta) (Coefficient.sampler eta (bit_of b)) rec cs.now
        (shares result.value.s0 result.value.s1) result.rec }
{
    let n = 2 * eta - 1;
    let mut s0 = [0u16; 6];
    let mut s1 = [0u16; 6];
    let rec = convert_bits(rec, eta, b, cs, &mut s0, &mut s1);
    let a0 = sum_terms(rec, n, &s0);
    let a1 = sum_terms(a0.rec, n, &s1);
    Entered {
        value: Shared {
            s0: a0.value,
            s1: a1.value,
        },
        rec: a1.rec,
    }
}
