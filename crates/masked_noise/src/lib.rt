// Stage 5 of masked decapsulation (document 01, The worksheet): noise on two shares, for any parameter set. Each
// function is handed the strips from its first mask on.
#![tactic(auto)]

ghost use Rattle.std.specs.Prelude.{[], ◌∷◌, ◌+◌, ◌*◌, drop, length};
ghost use Rattle.worksheet.specs.Prog.{times, word, coeff};
ghost use Rattle.worksheet.specs.Ran.{Ran, Draws};
ghost use Rattle.worksheet.specs.Sharing.{shares};
ghost use Rattle.worksheet.specs.SharedList.{shared_list};
ghost use Rattle.worksheet.specs.Zip.{zip};
ghost use Rattle.masked_fips202.specs.MaskedWords.{masked_shake256_words, shake256_mask_words};
ghost use Rattle.masked_sampler.specs.Coefficient.{sampler as sampler_of, sampler_coeffs};
ghost use Rattle.stages.specs.Counts.{noise_words, noise_coeffs, stage5_words, stage5_coeffs};
ghost use Rattle.stages.specs.Moves.{string_bit, with_public};
ghost use Rattle.stages.specs.Worksheet.{noise_poly, stage5 as stage5_of};
ghost use Rattle.stages.specs.Layout.{polynomials};
ghost use Rattle.stages.specs.Lent.{HashInput};
ghost use Rattle.masked_noise.specs.Lent.{BitsLent, BitsRead, SharedBitsRead};
ghost use Rattle.masked_noise.specs.Lent.{CoefficientBits, CoefficientInput, SampleInput};
ghost use Rattle.masked_noise.specs.Lent.{MaskedNoiseInput, PolynomialInput, Stage5Input};

use masked_fips202::masked_words::masked_shake256_words;
use masked_fips202::shared_input::{with_public, with_zeros};
use masked_sampler::sampler::sampler;
use parameters::Parameters;
use stages::mask_counts::{noise_coeffs, noise_words};
use worksheet::{Entered, Recorder, Shared, Shares};

// One share's n bits from bit s on, as the lowest of a word; where they cross a word's end, the next word gives the
// rest. What stands above them is left open.
fn bits_at(o: &[u64], s: usize, n: usize) -> u64
    requires { BitsLent s n o.now }
    ensures { BitsRead o.now s n result }
{
    let i = s / 64;
    let b = s % 64;
    let w = o[i] >> b;
    if b + n <= 64 {
        return w;
    }
    w ^ (o[i + 1] << (64 - b))
}

// The 2 eta bits of coefficient i, of both shares.
fn coefficient_bits(eta: usize, i: usize, o0: &[u64], o1: &[u64]) -> Shares
    requires { CoefficientBits eta i (shared_list o0.now o1.now) }
    ensures { SharedBitsRead (shared_list o0.now o1.now) (2 * eta * i) (2 * eta) result }
{
    let n = 2 * eta;
    let k = n * i;
    Shares {
        s0: bits_at(o0, k, n),
        s1: bits_at(o1, k, n),
    }
}

// Coefficient i, with the masks from its first on. Where the width is 2, that of most polynomials, it is handed on as a
// number, for which the compiler unrolls the sampler's loops. It would make one call of two that differ in the width
// alone: that the bits are read for the number 2 too keeps them apart.
fn sample_one(
    rec: Recorder,
    eta: usize,
    i: usize,
    o0: &[u64],
    o1: &[u64],
    cs: &[u16],
) -> Entered<Shared<u16>>
    requires { CoefficientInput eta i (shared_list o0.now o1.now) cs.now }
    ensures { Draws coeff (sampler_coeffs eta)
        (sampler_of eta (λ j. string_bit (shared_list o0.now o1.now) (2 * eta * i + j)))
        rec cs.now (shares result.value.s0 result.value.s1) result.rec }
{
    if eta == 2 {
        return sampler(rec, 2, coefficient_bits(2, i, o0, o1), cs);
    }
    sampler(rec, eta, coefficient_bits(eta, i, o0, o1), cs)
}

// 256 coefficients, each from 2 eta bits and with 2 eta masks.
fn sample_all(
    rec: Recorder,
    eta: usize,
    o0: &[u64],
    o1: &[u64],
    cs: &[u16],
    f0: &mut [u16],
    f1: &mut [u16],
) -> Recorder
    requires { SampleInput eta (shared_list o0.now o1.now) cs.now (shared_list f0.old f1.old) }
    ensures { Draws coeff (noise_coeffs eta)
        (times 256 (λ i.
        sampler_of eta (λ j. string_bit (shared_list o0.now o1.now) (2 * eta * i + j))))
        rec cs.now (zip 256 (shared_list f0.new f1.new)) result }
{
    let mut rec = rec;
    // By place, as the definition's turns are: bits, masks and both shares are walked side by side.
    for i in 0..256 {
        let k = 2 * eta * i;
        let o = sample_one(rec, eta, i, o0, o1, &cs[k..]);
        f0[i] = o.value.s0;
        f1[i] = o.value.s1;
        rec = o.rec;
    }
    rec
}

// SHAKE256 of the coins and n.
fn noise_bits(
    rec: Recorder,
    r0: &[u64],
    r1: &[u64],
    n: u8,
    ws: &[u64],
    o0: &mut [u64],
    o1: &mut [u64],
) -> Recorder
    requires { HashInput 1 (shake256_mask_words 33 (length o0.old)) (length o0.old)
        (shared_list r0.now r1.now) (n ∷ []) ws.now (shared_list o0.old o1.old) }
    ensures { Draws word (shake256_mask_words 33 (length o0.old))
        (masked_shake256_words (with_public (shared_list r0.now r1.now) (n ∷ [])).s0
        (with_public (shared_list r0.now r1.now) (n ∷ [])).s1 (length o0.old))
        rec ws.now (shared_list o0.new o1.new) result }
{
    let public = [n];
    let mut b0 = [0u8; 33];
    let mut b1 = [0u8; 33];
    with_public(r0, &public, &mut b0);
    with_zeros(r1, 1, &mut b1);
    masked_shake256_words(rec, &b0, &b1, ws, o0, o1)
}

// Polynomial n of width eta; o0 and o1 take its bits.
fn noise_from(
    rec: Recorder,
    eta: usize,
    r0: &[u64],
    r1: &[u64],
    n: u8,
    ws: &[u64],
    cs: &[u16],
    o0: &mut [u64],
    o1: &mut [u64],
    f0: &mut [u16],
    f1: &mut [u16],
) -> Recorder
    requires { PolynomialInput eta n (shared_list r0.now r1.now) ws.now cs.now
        (shared_list o0.old o1.old) (shared_list f0.old f1.old) }
    ensures { Ran (noise_poly eta (shared_list r0.now r1.now) n)
        rec ws.now cs.now (shared_list f0.new f1.new)
        result (drop (noise_words eta) ws.now) (drop (noise_coeffs eta) cs.now) }
{
    let rec = noise_bits(rec, r0, r1, n, ws, o0, o1);
    sample_all(rec, eta, o0, o1, cs, f0, f1)
}

// The same, with the room for the bits.
fn noise_poly(
    rec: Recorder,
    eta: usize,
    r0: &[u64],
    r1: &[u64],
    n: u8,
    ws: &[u64],
    cs: &[u16],
    f0: &mut [u16],
    f1: &mut [u16],
) -> Recorder
    requires { MaskedNoiseInput eta n 1 (shared_list r0.now r1.now) ws.now cs.now (shared_list f0.old f1.old) }
    ensures { Ran (noise_poly eta (shared_list r0.now r1.now) n)
        rec ws.now cs.now (shared_list f0.new f1.new)
        result (drop (noise_words eta) ws.now) (drop (noise_coeffs eta) cs.now) }
{
    // Rooms for the largest eta, as there is no heap.
    let mut o0 = [0u64; 24];
    let mut o1 = [0u64; 24];
    let m = 8 * eta;
    noise_from(
        rec,
        eta,
        r0,
        r1,
        n,
        ws,
        cs,
        &mut o0[0..m],
        &mut o1[0..m],
        f0,
        f1,
    )
}

// Polynomials n, n + 1, .., n + k - 1 of width eta.
fn noise_polys(
    rec: Recorder,
    eta: usize,
    r0: &[u64],
    r1: &[u64],
    n: usize,
    k: usize,
    ws: &[u64],
    cs: &[u16],
    f0: &mut [u16],
    f1: &mut [u16],
) -> Recorder
    requires { MaskedNoiseInput eta n k (shared_list r0.now r1.now) ws.now cs.now (shared_list f0.old f1.old) }
    ensures { Ran (times k (λ i. noise_poly eta (shared_list r0.now r1.now) (n + i)))
        rec ws.now cs.now (polynomials k (shared_list f0.new f1.new))
        result (drop (noise_words eta * k) ws.now) (drop (noise_coeffs eta * k) cs.now) }
{
    let words = noise_words(eta as u32);
    let coeffs = noise_coeffs(eta as u32);
    let mut rec = rec;
    // By place, as the definition's turns are: both strips and both shares are walked side by side.
    for i in 0..k {
        let a = 256 * i;
        let e = a + 256;
        let w = words * i;
        let c = coeffs * i;
        rec = noise_poly(
            rec,
            eta,
            r0,
            r1,
            (n + i) as u8,
            &ws[w..],
            &cs[c..],
            &mut f0[a..e],
            &mut f1[a..e],
        );
    }
    rec
}

// y of width eta1, then e1 and e2 of width eta2, from the coins.
pub fn stage5(
    rec: Recorder,
    p: Parameters,
    r0: &[u64],
    r1: &[u64],
    ws: &[u64],
    cs: &[u16],
    n0: &mut [u16],
    n1: &mut [u16],
) -> Recorder
    requires { Stage5Input p (shared_list r0.now r1.now) ws.now cs.now (shared_list n0.old n1.old) }
    ensures { Ran (stage5_of p (shared_list r0.now r1.now))
        rec ws.now cs.now
        (polynomials (2 * p.k + 1) (shared_list n0.new n1.new))
        result (drop (stage5_words p) ws.now) (drop (stage5_coeffs p) cs.now) }
{
    let k = p.k;
    let a = 256 * k;
    let eta = p.eta1;
    let w = noise_words(eta) * k;
    let c = noise_coeffs(eta) * k;
    let rec = noise_polys(
        rec,
        eta as usize,
        r0,
        r1,
        0,
        k,
        ws,
        cs,
        &mut n0[..a],
        &mut n1[..a],
    );
    noise_polys(
        rec,
        p.eta2 as usize,
        r0,
        r1,
        k,
        k + 1,
        &ws[w..],
        &cs[c..],
        &mut n0[a..],
        &mut n1[a..],
    )
}
