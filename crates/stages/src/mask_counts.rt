// How many masks the stages draw, for a parameter set: where the next stage's part of a strip begins. The bounds only
// keep the sums from overflowing; most counts are far below theirs.
ghost use Rattle.std.specs.Prelude.{◌≡◌, ◌≤◌};
ghost use Rattle.parameters.specs.Fits.{Within, Fits};
ghost use Rattle.stages.specs.Worksheet.{word_count};
ghost use Rattle.stages.specs.Counts.{compress_poly_words, noise_words, noise_coeffs};
ghost use Rattle.stages.specs.Counts.{stage5_words, stage5_coeffs, stage7_words, encrypt_words};
ghost use Rattle.stages.specs.Counts.{compared_words, stage9_words, ending_words, strip_words, strip_coeffs};

use crate::sums::{ciphertext_sum, noise_sum};
use parameters::{Edition, Parameters, ct_bytes};

// A polynomial compressed to depth d.
pub fn compress_poly_words(d: u32) -> usize
    requires { Within 1 11 d }
    ensures value { result ≡ compress_poly_words d }
    ensures upper_bound { result ≤ 284 }
{
    4 * (3 * (d as usize) + 38)
}

// A noise polynomial of width eta: 33 bytes are hashed to 8 eta words.
pub fn noise_words(eta: u32) -> usize
    requires { Within 1 3 eta }
    ensures value { result ≡ noise_words eta }
    ensures upper_bound { result ≤ 1225 }
{
    625 + 600 * ((8 * (eta as usize) - 1) / 17)
}

pub fn noise_coeffs(eta: u32) -> usize
    requires { Within 1 3 eta }
    ensures value { result ≡ noise_coeffs eta }
    ensures upper_bound { result ≤ 1536 }
{
    512 * (eta as usize)
}

pub fn stage5_words(p: Parameters) -> usize
    requires { Fits p }
    ensures value { result ≡ stage5_words p }
    ensures upper_bound { result ≤ 219474 }
{
    noise_sum(p.k, noise_words(p.eta1), noise_words(p.eta2))
}

// Noise's sum, of coefficients; stage 7's is a ciphertext's, of words.
pub fn stage5_coeffs(p: Parameters) -> usize
    requires { Fits p }
    ensures value { result ≡ stage5_coeffs p }
    ensures upper_bound { result ≤ 219474 }
{
    noise_sum(p.k, noise_coeffs(p.eta1), noise_coeffs(p.eta2))
}

fn stage7_words(p: Parameters) -> usize
    requires { Fits p }
    ensures value { result ≡ stage7_words p }
    ensures upper_bound { result ≤ 10920 }
{
    ciphertext_sum(p.k, compress_poly_words(p.du), compress_poly_words(p.dv))
}

// Stages 4 to 7.
pub fn encrypt_words(p: Parameters) -> usize
    requires { Fits p }
    ensures value { result ≡ encrypt_words p }
    ensures upper_bound { result ≤ 230394 }
{
    stage5_words(p) + stage7_words(p)
}

// The words of the planes that stage 8 compares.
pub fn word_count(p: Parameters) -> usize
    requires { Fits p }
    ensures value { result ≡ word_count p }
    ensures upper_bound { result ≤ 196 }
{
    ciphertext_sum(p.k, 4 * (p.du as usize), 4 * (p.dv as usize))
}

// Stages 1 to 8: stages 2 and 3 draw 789 words.
pub fn compared_words(p: Parameters) -> usize
    requires { Fits p }
    ensures value { result ≡ compared_words p }
    ensures upper_bound { result ≤ 231384 }
{
    789 + encrypt_words(p) + word_count(p) + 5
}

// Stage 9: z and the ciphertext are hashed.
pub fn stage9_words(p: Parameters) -> usize
    requires { Fits p }
    ensures value { result ≡ stage9_words p }
    ensures upper_bound { result ≤ 7225 }
{
    625 + 600 * ((32 + ct_bytes(p)) / 136)
}

// What follows stage 8: four words are selected, behind a hash or before one.
fn ending_words(e: Edition, p: Parameters) -> usize
    requires { Fits p }
    ensures value { result ≡ ending_words e p }
    ensures upper_bound { result ≤ 7229 }
{
    match e {
        Edition::MlKem => stage9_words(p) + 4,
        Edition::Kyber => 4 + 625,
    }
}

// A strip.
pub fn strip_words(e: Edition, p: Parameters) -> usize
    requires { Fits p }
    ensures value { result ≡ strip_words e p }
    ensures upper_bound { result ≤ 238613 }
{
    compared_words(p) + ending_words(e, p)
}

pub fn strip_coeffs(p: Parameters) -> usize
    requires { Fits p }
    ensures value { result ≡ strip_coeffs p }
    ensures upper_bound { result ≤ 219730 }
{
    256 + stage5_coeffs(p)
}
