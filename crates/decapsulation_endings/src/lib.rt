// What follows stage 8 of masked decapsulation, by the edition, from the equal bit, stage 3's words, z and the
// ciphertext; k0 and k1 take the shares of K.
#![tactic(auto)]

ghost use Rattle.parameters.specs.declared.Edition.TheVariants.{MlKem, Kyber};
ghost use Rattle.std.specs.Prelude.{length};
ghost use Rattle.worksheet.specs.Prog.{word};
ghost use Rattle.worksheet.specs.Ran.{Draws};
ghost use Rattle.worksheet.specs.SharedList.{shared_list};
ghost use Rattle.masked_comparison.specs.Lent.{SelectLent};
ghost use Rattle.stages.specs.Worksheet.{stage10 as stage10_of, last_hash, ending as ending_of};
ghost use Rattle.stages.specs.Counts.{stage10_words, last_hash_words, ending_words};
ghost use Rattle.stages.specs.Lent.{HashInput};
ghost use Rattle.decapsulation_endings.specs.Lent.{EndingInput};

use hash_functions::hash_h;
use masked_comparison::selection::select_all;
use masked_mlkem::hashing::masked_j;
use parameters::{Edition, Parameters};
use stages::mask_counts::stage9_words;
use worksheet::{Recorder, Shares};

// Stage 10: the four words of K' where the equal bit is 1, else those of y.
fn stage10(
    rec: Recorder,
    equal: Shares,
    g0: &[u64],
    g1: &[u64],
    y0: &[u64],
    y1: &[u64],
    ws: &[u64],
    out0: &mut [u64],
    out1: &mut [u64],
) -> Recorder
    requires { SelectLent 4 equal (shared_list g0.now g1.now) (shared_list y0.now y1.now) ws.now
        (shared_list out0.old out1.old) }
    ensures { Draws word stage10_words
        (stage10_of equal (shared_list g0.now g1.now)
        (shared_list y0.now y1.now))
        rec ws.now (shared_list out0.new out1.new) result }
{
    select_all(rec, 4, equal, g0, g1, y0, y1, ws, out0, out1)
}

// Kyber's last hash, of the selected words and the ciphertext's hash.
fn last_hash(
    rec: Recorder,
    w0: &[u64],
    w1: &[u64],
    c: &[u8],
    ws: &[u64],
    out0: &mut [u64],
    out1: &mut [u64],
) -> Recorder
    requires { HashInput (length c.now) last_hash_words 4 (shared_list w0.now w1.now) c.now ws.now
        (shared_list out0.old out1.old) }
    ensures { Draws word last_hash_words (last_hash (shared_list w0.now w1.now) c.now)
        rec ws.now (shared_list out0.new out1.new) result }
{
    let mut h = [0u8; 32];
    hash_h(c, &mut h);
    masked_j(rec, w0, w1, &h, ws, out0, out1)
}

// FIPS 203, algorithm 18: stage 9 makes the rejected words, and stage 10 selects K' or these.
fn mlkem_ending(
    rec: Recorder,
    p: Parameters,
    equal: Shares,
    g0: &[u64],
    g1: &[u64],
    z0: &[u64],
    z1: &[u64],
    c: &[u8],
    ws: &[u64],
    k0: &mut [u64],
    k1: &mut [u64],
) -> Recorder
    requires { EndingInput MlKem p equal (shared_list g0.now g1.now) (shared_list z0.now z1.now) c.now ws.now
        (shared_list k0.old k1.old) }
    ensures { Draws word (ending_words MlKem p)
        (ending_of MlKem (record { equal = equal; g = shared_list g0.now g1.now })
        (shared_list z0.now z1.now) c.now)
        rec ws.now (shared_list k0.new k1.new) result }
{
    let mut rejected0 = [0u64; 4];
    let mut rejected1 = [0u64; 4];
    let w = stage9_words(p);
    let rec = masked_j(rec, z0, z1, c, ws, &mut rejected0, &mut rejected1);
    stage10(rec, equal, g0, g1, &rejected0, &rejected1, &ws[w..], k0, k1)
}

// Kyber, algorithm 9, lines 7 to 10: K' or z is selected, and hashed with the ciphertext's hash.
fn kyber_ending(
    rec: Recorder,
    p: Parameters,
    equal: Shares,
    g0: &[u64],
    g1: &[u64],
    z0: &[u64],
    z1: &[u64],
    c: &[u8],
    ws: &[u64],
    k0: &mut [u64],
    k1: &mut [u64],
) -> Recorder
    requires { EndingInput Kyber p equal (shared_list g0.now g1.now) (shared_list z0.now z1.now) c.now ws.now
        (shared_list k0.old k1.old) }
    ensures { Draws word (ending_words Kyber p)
        (ending_of Kyber (record { equal = equal; g = shared_list g0.now g1.now })
        (shared_list z0.now z1.now) c.now)
        rec ws.now (shared_list k0.new k1.new) result }
{
    let mut selected0 = [0u64; 4];
    let mut selected1 = [0u64; 4];
    let rec = stage10(
        rec,
        equal,
        g0,
        g1,
        z0,
        z1,
        ws,
        &mut selected0,
        &mut selected1,
    );
    last_hash(rec, &selected0, &selected1, c, &ws[4..], k0, k1)
}

// By the edition.
pub fn ending(
    rec: Recorder,
    e: Edition,
    p: Parameters,
    equal: Shares,
    g0: &[u64],
    g1: &[u64],
    z0: &[u64],
    z1: &[u64],
    c: &[u8],
    ws: &[u64],
    k0: &mut [u64],
    k1: &mut [u64],
) -> Recorder
    requires { EndingInput e p equal (shared_list g0.now g1.now) (shared_list z0.now z1.now) c.now ws.now
        (shared_list k0.old k1.old) }
    ensures { Draws word (ending_words e p)
        (ending_of e (record { equal = equal; g = shared_list g0.now g1.now })
        (shared_list z0.now z1.now) c.now)
        rec ws.now (shared_list k0.new k1.new) result }
{
    match e {
        Edition::MlKem => mlkem_ending(rec, p, equal, g0, g1, z0, z1, c, ws, k0, k1),
        Edition::Kyber => kyber_ending(rec, p, equal, g0, g1, z0, z1, c, ws, k0, k1),
    }
}
