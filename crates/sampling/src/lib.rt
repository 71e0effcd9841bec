// SampleNTT on a lent stream, and SamplePolyCBD_eta at widths eta up to 3 (FIPS 203, section 4.2.2).
#![tactic(auto)]

ghost use Rattle.std.specs.Prelude.{cond, List, ◌++◌, map, ◌≡◌, ℕ, ◌+◌, ◌*◌, ◌/◌, ◌%◌, ◌^◌, ◌≤◌, length};
ghost use Rattle.words.specs.Bounded.{Below};
ghost use Rattle.sampling.specs.Sample.{kept, accepted, full, sample_ntt, sample_poly_cbd};
ghost use Rattle.sampling.specs.SampleAnswer.{answer_of};
ghost use Rattle.sampling.specs.SampleLaws.{centred};
ghost use Rattle.sampling.specs.Collect.{Collected};
ghost use Rattle.sampling.specs.Lent.{CentredInput, CbdInput};
ghost use Rattle.sampling.specs.Results.{KeptCount, BitCount, Sampling};

use codec::bits::{high, low, wide16};
use codec::byte_decode;
use refusals::{Answer, Refusal};
use ring::difference;

// Algorithm 7, line 6
fn d1_of(b0: u8, b1: u8) -> u16
    ensures { result ≡ b0 + 256 * (b1 % 16) }
{
    (b0 as u16) + 256 * ((b1 % 16) as u16)
}

// Algorithm 7, line 7
fn d2_of(b1: u8, b2: u8) -> u16
    ensures { result ≡ b1 / 16 + 16 * b2 }
{
    ((b1 / 16) as u16) + 16 * (b2 as u16)
}

// Algorithm 7, lines 8 and 12: 1 where x is kept
fn accepts(x: u16) -> usize
    ensures { KeptCount x result }
{
    if x < 3329 { 1 } else { 0 }
}

// how many numbers of 280 groups are kept
fn count_accepted(stream: &[u8]) -> usize
    requires { length stream.now ≡ 840 }
    ensures { result ≡ length (accepted 280 stream.now) }
{
    let mut n = 0;
    for b in stream.chunks_exact(3) {
        n += accepts(d1_of(b[0], b[1]));
        n += accepts(d2_of(b[1], b[2]));
    }
    n
}

// Algorithm 7, lines 8 to 15, for one number: x goes to f[k] where it is below q and there is room; the next place
fn keep(f: &mut [u16], k: usize, x: u16) -> usize
    ensures { (l : List ℕ) → Collected l f.old k → Collected (l ++ kept x) f.new result }
{
    if x < 3329 {
        if k < f.len() {
            f[k] = x;
            return k + 1;
        }
        return k;
    }
    k
}

// Algorithm 7, SampleNTT: f then holds what SampleNTT gives, unless the stream is too short to fill it.
pub fn fill_ntt(stream: &[u8], f: &mut [u16]) -> Answer
    requires { (length stream.now ≡ 840) × (length f.old ≡ 256) }
    ensures { Sampling (full stream.now) (sample_ntt stream.now) result f.new }
{
    let mut k = 0;
    for b in stream.chunks_exact(3) {
        k = keep(f, k, d1_of(b[0], b[1]));
        k = keep(f, k, d2_of(b[1], b[2]));
    }
    if k == 256 {
        Ok(())
    } else {
        Err(Refusal::ShortStream)
    }
}

// Algorithm 7 on a stream that may be short: f then stays as it is.
pub fn sample_ntt(stream: &[u8], f: &mut [u16]) -> Answer
    requires { (length stream.now ≡ 840) × (length f.old ≡ 256) }
    ensures value { result ≡ answer_of (full stream.now) }
    ensures f_after { f.new
        ≡ cond (full stream.now) (sample_ntt stream.now) f.old }
{
    if count_accepted(stream) < 256 {
        return Err(Refusal::ShortStream);
    }
    fill_ntt(stream, f)
}

// how many of the three bits of v are 1
fn weight(v: u16) -> u16
    ensures { BitCount v result }
{
    v % 2 + v / 2 % 2 + v / 4 % 2
}

// Algorithm 8, lines 3 to 5: x - y of the 2 eta bits of v
fn centred_at(v: u16, eta: u32) -> u16
    requires { CentredInput v eta }
    ensures { result ≡ centred eta v }
{
    difference(
        weight(low(wide16(v), eta)),
        weight(high(wide16(v), eta) as u16),
    )
}

// Algorithm 8, lines 2 to 6
fn centre_all(f: &mut [u16], eta: u32)
    requires { (eta ≤ 3) × Below (2 ^ (2 * eta)) f.old }
    ensures { f.new ≡ map (centred eta) f.old }
{
    for x in f.iter_mut() {
        *x = centred_at(*x, eta);
    }
}

// Algorithm 8, SamplePolyCBD_eta
pub fn sample_poly_cbd(bytes: &[u8], eta: u32, f: &mut [u16])
    requires { CbdInput bytes.now eta f.old }
    ensures { f.new ≡ sample_poly_cbd eta bytes.now }
{
    byte_decode(bytes, 2 * eta, f);
    centre_all(f, eta);
}
