// SHA3-512 and SHAKE256 on two shares, recorded, their output in words.
ghost use Rattle.std.specs.Prelude.{length};
ghost use Rattle.worksheet.specs.Prog.{word};
ghost use Rattle.worksheet.specs.Ran.{Draws};
ghost use Rattle.worksheet.specs.SharedList.{shared_list};
ghost use Rattle.masked_fips202.specs.MaskedWords.{masked_sha3_512_words, masked_shake256_words};
ghost use Rattle.masked_fips202.specs.MaskedWords.{sha3_512_mask_words, shake256_mask_words};
ghost use Rattle.masked_fips202.specs.Lent.{Sha3-512Lent, Shake256Lent};

use crate::sponge::masked_sponge;
use worksheet::Recorder;

// Eight words.
pub fn masked_sha3_512_words(
    rec: Recorder,
    in0: &[u8],
    in1: &[u8],
    ws: &[u64],
    o0: &mut [u64],
    o1: &mut [u64],
) -> Recorder
    requires { Sha3-512Lent in0.now in1.now ws.now o0.old o1.old }
    ensures { Draws word (sha3_512_mask_words (length in0.now))
        (masked_sha3_512_words in0.now in1.now)
        rec ws.now (shared_list o0.new o1.new) result }
{
    masked_sponge(rec, 72, 0x06, in0, in1, ws, o0, o1)
}

// Any number of words.
pub fn masked_shake256_words(
    rec: Recorder,
    in0: &[u8],
    in1: &[u8],
    ws: &[u64],
    o0: &mut [u64],
    o1: &mut [u64],
) -> Recorder
    requires { Shake256Lent in0.now in1.now ws.now o0.old o1.old }
    ensures { Draws word (shake256_mask_words (length in0.now) (length o0.old))
        (masked_shake256_words in0.now in1.now (length o0.old))
        rec ws.now (shared_list o0.new o1.new) result }
{
    masked_sponge(rec, 136, 0x1f, in0, in1, ws, o0, o1)
}
