// Stages 3 and 9, and Kyber's last hash: hashes of four words in two shares and a public string.
ghost use Rattle.std.specs.Prelude.{◌+◌, length};
ghost use Rattle.worksheet.specs.Prog.{word};
ghost use Rattle.worksheet.specs.Ran.{Draws};
ghost use Rattle.worksheet.specs.SharedList.{shared_list};
ghost use Rattle.masked_fips202.specs.MaskedWords.{shake256_mask_words};
ghost use Rattle.stages.specs.Worksheet.{stage3 as stage3_of, masked_j};
ghost use Rattle.stages.specs.Counts.{stage3_words};
ghost use Rattle.stages.specs.Lent.{HashInput};
ghost use Rattle.masked_mlkem.specs.Lent.{JInput, JWork};

use masked_fips202::masked_words::{masked_sha3_512_words, masked_shake256_words};
use masked_fips202::shared_input::{with_public, with_zeros};
use worksheet::Recorder;

// K' and the coins, from m' and h.
pub fn stage3(
    rec: Recorder,
    m0: &[u64],
    m1: &[u64],
    h: &[u8],
    ws: &[u64],
    g0: &mut [u64],
    g1: &mut [u64],
) -> Recorder
    requires { HashInput 32 stage3_words 8 (shared_list m0.now m1.now) h.now ws.now (shared_list g0.old g1.old) }
    ensures { Draws word stage3_words (stage3_of (shared_list m0.now m1.now) h.now)
        rec ws.now (shared_list g0.new g1.new) result }
{
    let mut b0 = [0u8; 64];
    let mut b1 = [0u8; 64];
    with_public(m0, h, &mut b0);
    with_zeros(m1, h.len(), &mut b1);
    masked_sha3_512_words(rec, &b0, &b1, ws, g0, g1)
}

// FIPS 203's J, where b0 and b1 take its input.
fn masked_j_in(
    rec: Recorder,
    w0: &[u64],
    w1: &[u64],
    string: &[u8],
    ws: &[u64],
    b0: &mut [u8],
    b1: &mut [u8],
    out0: &mut [u64],
    out1: &mut [u64],
) -> Recorder
    requires { JWork (shared_list w0.now w1.now) string.now ws.now (shared_list b0.old b1.old)
        (shared_list out0.old out1.old) }
    ensures { Draws word (shake256_mask_words (32 + length string.now) 4)
        (masked_j (shared_list w0.now w1.now) string.now)
        rec ws.now (shared_list out0.new out1.new) result }
{
    with_public(w0, string, b0);
    with_zeros(w1, string.len(), b1);
    masked_shake256_words(rec, b0, b1, ws, out0, out1)
}

// FIPS 203's J: the rejected words, from z and the ciphertext; Kyber's last hash, from the selected words and the
// ciphertext's hash.
pub fn masked_j(
    rec: Recorder,
    w0: &[u64],
    w1: &[u64],
    string: &[u8],
    ws: &[u64],
    out0: &mut [u64],
    out1: &mut [u64],
) -> Recorder
    requires { JInput (shared_list w0.now w1.now) string.now ws.now (shared_list out0.old out1.old) }
    ensures { Draws word (shake256_mask_words (32 + length string.now) 4)
        (masked_j (shared_list w0.now w1.now) string.now)
        rec ws.now (shared_list out0.new out1.new) result }
{
    let mut b0 = [0u8; 1600]; // for the longest ciphertext
    let mut b1 = [0u8; 1600];
    let n = 32 + string.len();
    masked_j_in(
        rec,
        w0,
        w1,
        string,
        ws,
        &mut b0[0..n],
        &mut b1[0..n],
        out0,
        out1,
    )
}
