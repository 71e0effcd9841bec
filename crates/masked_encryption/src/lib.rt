// Stages 4 to 7 of masked decapsulation (document 01, The worksheet): encryption on two shares, for a parameter set.
// Stage 5 is masked_noise. Each function is handed the strips from its first mask on.
#![tactic(auto)]

mod message; // stage 4
mod compression; // stage 7
mod reencryption; // stage 6

ghost use Rattle.std.specs.Prelude.{◌+◌, ◌*◌, drop};
ghost use Rattle.worksheet.specs.Prog.{word};
ghost use Rattle.worksheet.specs.Ran.{Ran, Draws};
ghost use Rattle.worksheet.specs.SharedList.{shared_list};
ghost use Rattle.worksheet.specs.Zip.{zip};
ghost use Rattle.stages.specs.Worksheet.{word_count, masked_encrypt};
ghost use Rattle.stages.specs.Counts.{stage7_words, encrypt_words, encrypt_coeffs};
ghost use Rattle.stages.specs.Layout.{polynomials};
ghost use Rattle.masked_encryption.specs.Encryption.{encrypt_with};
ghost use Rattle.masked_encryption.specs.Lent.{EncryptWithInput, MaskedEncryptInput, MaskedEncryptRoom};

use crate::compression::stage7;
use crate::message::stage4;
use crate::reencryption::stage6;
use masked_noise::stage5;
use parameters::Parameters;
use stages::mask_counts::stage5_words;
use worksheet::Recorder;

// Stages 6 and 7, for the matrix a and the noise n0, n1, whose first places u and v take.
fn encrypt_with(
    rec: Recorder,
    p: Parameters,
    a: &[u16],
    ek: &[u8],
    n0: &mut [u16],
    n1: &mut [u16],
    mu0: &[u16],
    mu1: &[u16],
    ws: &[u64],
    planes0: &mut [u64],
    planes1: &mut [u64],
) -> Recorder
    requires { EncryptWithInput p ek.now a.now (shared_list n0.old n1.old) (shared_list mu0.now mu1.now) ws.now
        (shared_list planes0.old planes1.old) }
    ensures { Draws word (stage7_words p)
        (encrypt_with p ek.now (polynomials (2 * p.k + 1) (shared_list n0.old n1.old))
        (shared_list mu0.now mu1.now))
        rec ws.now (zip (word_count p) (shared_list planes0.new planes1.new)) result }
{
    let e = 256 * (p.k + 1);
    let rec = stage6(rec, p, a, ek, n0, n1, mu0, mu1);
    stage7(rec, p, &n0[0..e], &n1[0..e], ws, planes0, planes1)
}

// masked_encrypt, with room for the message's polynomial and the noise.
fn encrypt_stages(
    rec: Recorder,
    p: Parameters,
    a: &[u16],
    ek: &[u8],
    m0: &[u64],
    m1: &[u64],
    r0: &[u64],
    r1: &[u64],
    ws: &[u64],
    cs: &[u16],
    mu0: &mut [u16],
    mu1: &mut [u16],
    n0: &mut [u16],
    n1: &mut [u16],
    planes0: &mut [u64],
    planes1: &mut [u64],
) -> Recorder
    requires { MaskedEncryptInput p ek.now a.now (shared_list m0.now m1.now) (shared_list r0.now r1.now) ws.now
        cs.now (shared_list planes0.old planes1.old)
        × MaskedEncryptRoom p (shared_list mu0.old mu1.old) (shared_list n0.old n1.old) }
    ensures { Ran
        (masked_encrypt p ek.now (shared_list m0.now m1.now)
        (shared_list r0.now r1.now))
        rec ws.now cs.now
        (zip (word_count p) (shared_list planes0.new planes1.new))
        result (drop (encrypt_words p) ws.now) (drop (encrypt_coeffs p) cs.now) }
{
    let w = stage5_words(p);
    let rec = stage4(rec, m0, m1, cs, mu0, mu1);
    let rec = stage5(rec, p, r0, r1, ws, &cs[256..], n0, n1);
    encrypt_with(rec, p, a, ek, n0, n1, mu0, mu1, &ws[w..], planes0, planes1)
}

// The planes of the ciphertext of m0, m1 under the coins r0, r1, for the matrix a.
pub fn masked_encrypt(
    rec: Recorder,
    p: Parameters,
    a: &[u16],
    ek: &[u8],
    m0: &[u64],
    m1: &[u64],
    r0: &[u64],
    r1: &[u64],
    ws: &[u64],
    cs: &[u16],
    planes0: &mut [u64],
    planes1: &mut [u64],
) -> Recorder
    requires { MaskedEncryptInput p ek.now a.now (shared_list m0.now m1.now) (shared_list r0.now r1.now) ws.now
        cs.now (shared_list planes0.old planes1.old) }
    ensures { Ran
        (masked_encrypt p ek.now (shared_list m0.now m1.now)
        (shared_list r0.now r1.now))
        rec ws.now cs.now
        (zip (word_count p) (shared_list planes0.new planes1.new))
        result (drop (encrypt_words p) ws.now) (drop (encrypt_coeffs p) cs.now) }
{
    let mut mu0 = [0u16; 256];
    let mut mu1 = [0u16; 256];
    // Rooms for the highest rank, as there is no heap.
    let mut n0 = [0u16; 2304];
    let mut n1 = [0u16; 2304];
    let n = 256 * (2 * p.k + 1);
    encrypt_stages(
        rec,
        p,
        a,
        ek,
        m0,
        m1,
        r0,
        r1,
        ws,
        cs,
        &mut mu0,
        &mut mu1,
        &mut n0[0..n],
        &mut n1[0..n],
        planes0,
        planes1,
    )
}
