// Sampling, key making, encapsulation, import and refreshing for C.
ghost use Rattle.parameters.specs.declared.Edition.TheVariants.{MlKem, Kyber};
ghost use Rattle.split_key.specs.SplitKey.{split_key};
ghost use Rattle.mlkem.specs.Calls.{StreamSampled, KeysMadeBy, EncapsulatedBy};
ghost use Rattle.split_key.specs.KeyState.{key_state};
ghost use Rattle.split_key.specs.Import.{ImportedBy};
ghost use Rattle.split_key.specs.Refresh.{RefreshedBy};
ghost use Rattle.worksheet.specs.SharedList.{shared_list};

use crate::refusal;
use parameters::Edition;
use split_key::{KeyStateMut, Masks, SharesMut};

// SampleNTT (FIPS 203, algorithm 7).
#[unsafe(no_mangle)]
pub extern "C" fn tifo_sample(stream: &[u8], out: &mut [u16]) -> u32
    ensures { StreamSampled stream.now out.old result out.new }
{
    refusal(mlkem::sample(stream, out))
}

// FIPS 203, algorithm 16.
#[unsafe(no_mangle)]
pub extern "C" fn tifo_keygen(rank: u32, d: &[u8], z: &[u8], ek: &mut [u8], dk: &mut [u8]) -> u32
    ensures { KeysMadeBy
        MlKem
        rank
        d.now
        z.now
        ek.old
        dk.old
        result
        ek.new
        dk.new }
{
    refusal(mlkem_keygen::keygen(Edition::MlKem, rank, d, z, ek, dk))
}

// Kyber, algorithm 7.
#[unsafe(no_mangle)]
pub extern "C" fn tifo_kyber_keygen(
    rank: u32,
    d: &[u8],
    z: &[u8],
    ek: &mut [u8],
    dk: &mut [u8],
) -> u32
    ensures { KeysMadeBy
        Kyber
        rank
        d.now
        z.now
        ek.old
        dk.old
        result
        ek.new
        dk.new }
{
    refusal(mlkem_keygen::keygen(Edition::Kyber, rank, d, z, ek, dk))
}

// FIPS 203, algorithm 17.
#[unsafe(no_mangle)]
pub extern "C" fn tifo_encaps(rank: u32, ek: &[u8], m: &[u8], ct: &mut [u8], k: &mut [u8]) -> u32
    ensures { EncapsulatedBy
        MlKem
        rank
        ek.now
        m.now
        ct.old
        k.old
        result
        ct.new
        k.new }
{
    refusal(mlkem_encaps::encaps(Edition::MlKem, rank, ek, m, ct, k))
}

// Kyber, algorithm 8.
#[unsafe(no_mangle)]
pub extern "C" fn tifo_kyber_encaps(
    rank: u32,
    ek: &[u8],
    m: &[u8],
    ct: &mut [u8],
    k: &mut [u8],
) -> u32
    ensures { EncapsulatedBy
        Kyber
        rank
        ek.now
        m.now
        ct.old
        k.old
        result
        ct.new
        k.new }
{
    refusal(mlkem_encaps::encaps(Edition::Kyber, rank, ek, m, ct, k))
}

// A key in two shares, with a use limit and a count.
#[unsafe(no_mangle)]
pub extern "C" fn tifo_import(
    rank: u32,
    dk: &[u8],
    mask_coeffs: &[u16],
    mask_words: &[u64],
    limit: u32,
    s0: &mut [u16],
    s1: &mut [u16],
    z0: &mut [u64],
    z1: &mut [u64],
    public: &mut [u8],
    limit_out: &mut u32,
    count_out: &mut u32,
) -> u32
    ensures { ImportedBy rank dk.now mask_coeffs.now mask_words.now limit
        (key_state
        (split_key s0.old s1.old z0.old z1.old public.old)
        limit_out.old count_out.old)
        result
        (key_state
        (split_key s0.new s1.new z0.new z1.new public.new)
        limit_out.new count_out.new) }
{
    let masks = Masks {
        coeffs: mask_coeffs,
        words: mask_words,
    };
    let mut state = KeyStateMut {
        s0,
        s1,
        z0,
        z1,
        public,
        limit: limit_out,
        count: count_out,
    };
    refusal(split_key_import::import(rank, dk, &masks, limit, &mut state))
}

// Fresh shares of the same key, and the count 0.
#[unsafe(no_mangle)]
pub extern "C" fn tifo_refresh(
    rank: u32,
    mask_coeffs: &[u16],
    mask_words: &[u64],
    s0: &mut [u16],
    s1: &mut [u16],
    z0: &mut [u64],
    z1: &mut [u64],
    count: &mut u32,
) -> u32
    ensures { RefreshedBy rank mask_coeffs.now mask_words.now
        (shared_list s0.old s1.old) (shared_list z0.old z1.old)
        count.old result
        (shared_list s0.new s1.new) (shared_list z0.new z1.new)
        count.new }
{
    let masks = Masks {
        coeffs: mask_coeffs,
        words: mask_words,
    };
    let mut shares = SharesMut { s0, s1, z0, z1 };
    refusal(split_key_refresh::refresh(rank, &masks, &mut shares, count))
}
