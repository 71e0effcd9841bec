// The sponge on two shares, recorded, its output in bytes or in words.
ghost use Rattle.std.specs.Prelude.{◌+◌, length};
ghost use Rattle.worksheet.specs.Prog.{word};
ghost use Rattle.worksheet.specs.Ran.{Draws};
ghost use Rattle.masked_sponge.specs.MaskedSponge.{input_blocks, further_blocks, hash_mask_words};
ghost use Rattle.masked_fips202.specs.SpongeOutput.{sponge_output};
ghost use Rattle.masked_fips202.specs.Lent.{SpongeLent};

use masked_sponge::absorb::masked_absorb;
use masked_sponge::squeeze::{Output, masked_squeeze};
use worksheet::Recorder;

// Of the message whose shares are in0 and in1.
pub(crate) fn masked_sponge<T: Output>(
    rec: Recorder,
    rate: usize,
    suffix: u8,
    in0: &[u8],
    in1: &[u8],
    ws: &[u64],
    out0: &mut [T],
    out1: &mut [T],
) -> Recorder
    requires { SpongeLent rate suffix (T.block rate) in0.now in1.now ws.now out0.old out1.old }
    ensures { Draws word
        (hash_mask_words (input_blocks rate (length in0.now) + further_blocks (T.block rate) (length out0.old)))
        (sponge_output rate suffix in0.now in1.now (T.squeezed (T.block rate) (length out0.old)))
        rec ws.now (record { s0 = out0.new; s1 = out1.new }) result }
{
    let k = 25 + 600 * (in0.len() / rate + 1);
    let o = masked_absorb(rec, in0, in1, rate, suffix, ws);
    masked_squeeze(o.rec, o.value, T::block(rate), &ws[k..], out0, out1)
}
