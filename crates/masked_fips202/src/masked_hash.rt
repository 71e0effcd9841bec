// SHA3-512 and SHAKE256 on two shares.
ghost use Rattle.std.specs.Prelude.{◌≡◌, ◌+◌, ◌*◌, ◌%◌, ◌<◌, ◌≤◌, [], eqb, length};
ghost use Rattle.refusals.specs.Refusals.{number};
ghost use Rattle.fips202.specs.Lent.{SpongeFits};
ghost use Rattle.masked_sponge.specs.MaskedSponge.{permutations as permutations_of, hash_mask_words};
ghost use Rattle.masked_sponge.specs.MaskedBytes.{masked_hash};
ghost use Rattle.masked_fips202.specs.MaskedCalls.{hash_answer, MaskedHashed};
ghost use Rattle.masked_fips202.specs.MaskedCalls.{masked_sha3_512_call, masked_shake256_call};

use crate::sponge::masked_sponge;
use masked_sponge::squeeze::further;
use refusals::{Answer, Refusal};
use worksheet::Recorder;

// The permutations for n bytes of input and d of output.
fn permutations(rate: usize, n: usize, d: usize) -> usize
    requires { 8 ≤ rate }
    ensures { result ≡ permutations_of rate n d }
{
    n / rate + 1 + further(d, rate)
}

// Whether n masks are 25 and 600 for each permutation.
fn enough(n: usize, permutations: usize) -> bool
    ensures { result ≡ eqb n (hash_mask_words permutations) }
{
    n % 600 == 25 && n / 600 == permutations
}

// The outputs are filled with the shares of the hash, or it is refused where a length isn't exact.
fn masked_hash(
    rate: usize,
    suffix: u8,
    in0: &[u8],
    in1: &[u8],
    masks: &[u64],
    out0: &mut [u8],
    out1: &mut [u8],
) -> Answer
    requires { SpongeFits rate suffix }
    ensures { MaskedHashed
        (hash_answer rate in0.now in1.now masks.now
        out0.old out1.old)
        (masked_hash rate suffix in0.now in1.now (length out0.old))
        masks.now out0.old out1.old
        (number result) out0.new out1.new }
{
    let n = in0.len();
    let d = out0.len();
    if n != in1.len() {
        return Err(Refusal::WrongLength);
    }
    if d != out1.len() {
        return Err(Refusal::WrongLength);
    }
    if !enough(masks.len(), permutations(rate, n, d)) {
        return Err(Refusal::WrongLength);
    }
    let rec = Recorder { left: 0, value: 0 };
    masked_sponge(rec, rate, suffix, in0, in1, masks, out0, out1);
    Ok(())
}

pub fn masked_sha3_512(
    in0: &[u8],
    in1: &[u8],
    masks: &[u64],
    out0: &mut [u8],
    out1: &mut [u8],
) -> Answer
    ensures { masked_sha3_512_call
        in0.now in1.now masks.now out0.old out1.old
        (number result) out0.new out1.new }
{
    if out0.len() != 64 {
        return Err(Refusal::WrongLength);
    }
    masked_hash(72, 0x06, in0, in1, masks, out0, out1)
}

pub fn masked_shake256(
    in0: &[u8],
    in1: &[u8],
    masks: &[u64],
    out0: &mut [u8],
    out1: &mut [u8],
) -> Answer
    ensures { masked_shake256_call
        in0.now in1.now masks.now out0.old out1.old
        (number result) out0.new out1.new }
{
    masked_hash(136, 0x1f, in0, in1, masks, out0, out1)
}
