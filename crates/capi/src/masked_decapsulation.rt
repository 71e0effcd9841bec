// Masked decapsulation and its trace for C, of either edition.
ghost use Rattle.parameters.specs.declared.Edition.TheVariants.{MlKem, Kyber};
ghost use Rattle.decapsulation_run.specs.Input.{input};
ghost use Rattle.decapsulation.specs.Calls.{DecapsulatedBy, TracedBy};

use crate::refusal;
use decapsulation::{Input, SplitKey, decaps, trace};
use parameters::Edition;

#[unsafe(no_mangle)]
pub extern "C" fn tifo_decaps(
    rank: u32,
    s0: &[u16],
    s1: &[u16],
    z0: &[u64],
    z1: &[u64],
    public: &[u8],
    limit: u32,
    count: &mut u32,
    ct: &[u8],
    words: &[u64],
    coeffs: &[u16],
    k0: &mut [u64],
    k1: &mut [u64],
) -> u32
    ensures { DecapsulatedBy MlKem rank
        (input s0.now s1.now z0.now z1.now public.now
        ct.now words.now coeffs.now)
        limit count.old k0.old k1.old result
        count.new k0.new k1.new }
{
    let input = Input {
        key: SplitKey {
            s0,
            s1,
            z0,
            z1,
            public,
        },
        ct,
        words,
        coeffs,
    };
    refusal(decaps(Edition::MlKem, rank, &input, limit, count, k0, k1))
}

#[unsafe(no_mangle)]
pub extern "C" fn tifo_trace(
    rank: u32,
    s0: &[u16],
    s1: &[u16],
    z0: &[u64],
    z1: &[u64],
    public: &[u8],
    ct: &[u8],
    words: &[u64],
    coeffs: &[u16],
    step: u64,
    value: &mut u64,
) -> u32
    ensures { TracedBy MlKem rank
        (input s0.now s1.now z0.now z1.now public.now
        ct.now words.now coeffs.now)
        step value.old result value.new }
{
    let input = Input {
        key: SplitKey {
            s0,
            s1,
            z0,
            z1,
            public,
        },
        ct,
        words,
        coeffs,
    };
    refusal(trace(Edition::MlKem, rank, &input, step, value))
}

#[unsafe(no_mangle)]
pub extern "C" fn tifo_kyber_decaps(
    rank: u32,
    s0: &[u16],
    s1: &[u16],
    z0: &[u64],
    z1: &[u64],
    public: &[u8],
    limit: u32,
    count: &mut u32,
    ct: &[u8],
    words: &[u64],
    coeffs: &[u16],
    k0: &mut [u64],
    k1: &mut [u64],
) -> u32
    ensures { DecapsulatedBy Kyber rank
        (input s0.now s1.now z0.now z1.now public.now
        ct.now words.now coeffs.now)
        limit count.old k0.old k1.old result
        count.new k0.new k1.new }
{
    let input = Input {
        key: SplitKey {
            s0,
            s1,
            z0,
            z1,
            public,
        },
        ct,
        words,
        coeffs,
    };
    refusal(decaps(Edition::Kyber, rank, &input, limit, count, k0, k1))
}

#[unsafe(no_mangle)]
pub extern "C" fn tifo_kyber_trace(
    rank: u32,
    s0: &[u16],
    s1: &[u16],
    z0: &[u64],
    z1: &[u64],
    public: &[u8],
    ct: &[u8],
    words: &[u64],
    coeffs: &[u16],
    step: u64,
    value: &mut u64,
) -> u32
    ensures { TracedBy Kyber rank
        (input s0.now s1.now z0.now z1.now public.now
        ct.now words.now coeffs.now)
        step value.old result value.new }
{
    let input = Input {
        key: SplitKey {
            s0,
            s1,
            z0,
            z1,
            public,
        },
        ct,
        words,
        coeffs,
    };
    refusal(trace(Edition::Kyber, rank, &input, step, value))
}
