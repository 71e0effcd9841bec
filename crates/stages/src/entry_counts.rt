// How many entries the worksheet makes, for a parameter set. The bounds only keep the sums from overflowing.
ghost use Rattle.std.specs.Prelude.{◌≡◌, ◌≤◌};
ghost use Rattle.parameters.specs.Fits.{Within, Fits};
ghost use Rattle.stages.specs.EntryCounts.{compress_poly_entries, noise_entries, stage5_entries, stage7_entries};
ghost use Rattle.stages.specs.EntryCounts.{stage8_entries, stage9_entries, ending_entries, steps as steps_of};

use crate::mask_counts::word_count;
use crate::sums::{ciphertext_sum, noise_sum};
use parameters::{Edition, Parameters, ct_bytes};

// A polynomial compressed to depth d.
fn compress_poly_entries(d: u32) -> usize
    requires { Within 1 11 d }
    ensures value { result ≡ compress_poly_entries d }
    ensures upper_bound { result ≤ 2184 }
{
    4 * (18 * (d as usize) + 348)
}

// A noise polynomial of width eta: a hash, then 256 coefficients sampled.
fn noise_entries(eta: u32) -> usize
    requires { Within 1 3 eta }
    ensures value { result ≡ noise_entries eta }
    ensures upper_bound { result ≤ 24386 }
{
    let e = eta as usize;
    7858 + 7824 * ((8 * e - 1) / 17) + 256 * (12 * e - 2)
}

fn stage5_entries(p: Parameters) -> usize
    requires { Fits p }
    ensures value { result ≡ stage5_entries p }
    ensures upper_bound { result ≤ 219474 }
{
    noise_sum(p.k, noise_entries(p.eta1), noise_entries(p.eta2))
}

fn stage7_entries(p: Parameters) -> usize
    requires { Fits p }
    ensures value { result ≡ stage7_entries p }
    ensures upper_bound { result ≤ 10920 }
{
    ciphertext_sum(
        p.k,
        compress_poly_entries(p.du),
        compress_poly_entries(p.dv),
    )
}

fn stage8_entries(p: Parameters) -> usize
    requires { Fits p }
    ensures value { result ≡ stage8_entries p }
    ensures upper_bound { result ≤ 2408 }
{
    12 * word_count(p) + 56
}

fn stage9_entries(p: Parameters) -> usize
    requires { Fits p }
    ensures value { result ≡ stage9_entries p }
    ensures upper_bound { result ≤ 94296 }
{
    7858 * ((32 + ct_bytes(p)) / 136 + 1)
}

// What follows stage 8.
fn ending_entries(e: Edition, p: Parameters) -> usize
    requires { Fits p }
    ensures value { result ≡ ending_entries e p }
    ensures upper_bound { result ≤ 94344 }
{
    match e {
        Edition::MlKem => stage9_entries(p) + 48,
        Edition::Kyber => 48 + 7858,
    }
}

// The worksheet's steps; stages 1 to 4 make 10,842, and stage 6 makes 512 for each of k + 1 polynomials.
pub fn steps(e: Edition, p: Parameters) -> usize
    requires { Fits p }
    ensures value { result ≡ steps_of e p }
    ensures upper_bound { result ≤ 340548 }
{
    let reencryption = stage5_entries(p) + 512 * (p.k + 1) + stage7_entries(p);
    10842 + reencryption + stage8_entries(p) + ending_entries(e, p)
}
