// The outward calls for C (include/tifolanzo.h). Each returns 0 where it is carried out and else the refusal's number.
#![tactic(auto)]

ghost use Rattle.std.specs.Prelude.{◌≡◌};
ghost use Rattle.refusals.specs.Refusals.{number};
ghost use Rattle.fips202.specs.Calls.{sha3_256_call, sha3_512_call, shake128_call, shake256_call};
ghost use Rattle.masked_fips202.specs.MaskedCalls.{masked_sha3_512_call, masked_shake256_call};

use refusals::Answer;

pub mod keys; // the key calls but these:
pub mod masked_decapsulation; // masked decapsulation and its trace

pub fn refusal(answer: Answer) -> u32
    ensures { result ≡ number answer }
{
    refusals::number(answer) as u32
}

#[unsafe(no_mangle)]
pub extern "C" fn tifo_sha3_256(input: &[u8], out: &mut [u8]) -> u32
    ensures { sha3_256_call input.now out.old result out.new }
{
    refusal(fips202::sha3_256(input, out))
}

#[unsafe(no_mangle)]
pub extern "C" fn tifo_sha3_512(input: &[u8], out: &mut [u8]) -> u32
    ensures { sha3_512_call input.now out.old result out.new }
{
    refusal(fips202::sha3_512(input, out))
}

#[unsafe(no_mangle)]
pub extern "C" fn tifo_shake128(input: &[u8], out: &mut [u8]) -> u32
    ensures { shake128_call input.now out.old result out.new }
{
    fips202::shake128(input, out);
    0
}

#[unsafe(no_mangle)]
pub extern "C" fn tifo_shake256(input: &[u8], out: &mut [u8]) -> u32
    ensures { shake256_call input.now out.old result out.new }
{
    fips202::shake256(input, out);
    0
}

#[unsafe(no_mangle)]
pub extern "C" fn tifo_masked_sha3_512(
    in0: &[u8],
    in1: &[u8],
    masks: &[u64],
    out0: &mut [u8],
    out1: &mut [u8],
) -> u32
    ensures { masked_sha3_512_call
        in0.now in1.now masks.now out0.old out1.old
        result out0.new out1.new }
{
    refusal(masked_fips202::masked_sha3_512(in0, in1, masks, out0, out1))
}

#[unsafe(no_mangle)]
pub extern "C" fn tifo_masked_shake256(
    in0: &[u8],
    in1: &[u8],
    masks: &[u64],
    out0: &mut [u8],
    out1: &mut [u8],
) -> u32
    ensures { masked_shake256_call
        in0.now in1.now masks.now out0.old out1.old
        result out0.new out1.new }
{
    refusal(masked_fips202::masked_shake256(in0, in1, masks, out0, out1))
}
