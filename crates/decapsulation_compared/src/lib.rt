// Stages 1 to 8 of masked decapsulation (document 01, The worksheet): decryption, stage 3, encryption again, and the
// comparison. Each function is handed the strips from its first mask on.
#![tactic(auto)]

ghost use Rattle.std.specs.Prelude.{◌+◌, drop};
ghost use Rattle.worksheet.specs.Ran.{Ran};
ghost use Rattle.worksheet.specs.SharedList.{SharedList, shared_list};
ghost use Rattle.stages.specs.Worksheet.{word_count, compared as compared_of};
ghost use Rattle.stages.specs.Lent.{Long};
ghost use Rattle.stages.specs.Counts.{encrypt_words, encrypt_coeffs, stage8_words, compared_words};
ghost use Rattle.masked_mlkem.specs.Lent.{GivesBit};
ghost use Rattle.decapsulation_compared.specs.ReencryptionCheck.{reencryption_check as reencryption_check_of};
ghost use Rattle.decapsulation_compared.specs.Lent.{CompareInput, ReencryptionCheckInput};

use masked_decryption::masked_decrypt;
use masked_encryption::masked_encrypt;
use masked_mlkem::comparison::stage8;
use masked_mlkem::hashing::stage3;
use parameters::{Parameters, ek_bytes};
use stages::mask_counts::{encrypt_words, word_count};
use worksheet::{Entered, Recorder, Shares};

// Stages 4 to 8, where planes0 and planes1 take stage 7's planes.
fn reencryption_check_in(
    rec: Recorder,
    p: Parameters,
    a: &[u16],
    ek: &[u8],
    c: &[u8],
    m0: &[u64],
    m1: &[u64],
    g0: &[u64],
    g1: &[u64],
    ws: &[u64],
    cs: &[u16],
    planes0: &mut [u64],
    planes1: &mut [u64],
) -> Entered<Shares>
    requires { ReencryptionCheckInput p ek.now a.now c.now (shared_list m0.now m1.now) (shared_list g0.now g1.now)
        ws.now cs.now
        × Long (word_count p) (shared_list planes0.old planes1.old) }
    ensures { GivesBit
        (Ran
        (reencryption_check_of p ek.now (shared_list m0.now m1.now)
        (shared_list g0.now g1.now) c.now)
        rec ws.now cs.now
        (record { equal = result.value; g = shared_list g0.now g1.now })
        result.rec (drop (encrypt_words p + stage8_words p) ws.now) (drop (encrypt_coeffs p) cs.now))
        result.value }
{
    let w = encrypt_words(p);
    let rec = masked_encrypt(
        rec,
        p,
        a,
        ek,
        m0,
        m1,
        &g0[4..8],
        &g1[4..8],
        ws,
        cs,
        planes0,
        planes1,
    );
    stage8(rec, p, c, planes0, planes1, &ws[w..])
}

// Stages 4 to 8, from m' and stage 3's words, for the matrix a: the equal bit.
fn reencryption_check(
    rec: Recorder,
    p: Parameters,
    a: &[u16],
    ek: &[u8],
    c: &[u8],
    m0: &[u64],
    m1: &[u64],
    g0: &[u64],
    g1: &[u64],
    ws: &[u64],
    cs: &[u16],
) -> Entered<Shares>
    requires { ReencryptionCheckInput p ek.now a.now c.now (shared_list m0.now m1.now) (shared_list g0.now g1.now)
        ws.now cs.now }
    ensures { GivesBit
        (Ran
        (reencryption_check_of p ek.now (shared_list m0.now m1.now)
        (shared_list g0.now g1.now) c.now)
        rec ws.now cs.now
        (record { equal = result.value; g = shared_list g0.now g1.now })
        result.rec (drop (encrypt_words p + stage8_words p) ws.now) (drop (encrypt_coeffs p) cs.now))
        result.value }
{
    // Rooms for the longest ciphertext, as there is no heap.
    let mut planes0 = [0u64; 196];
    let mut planes1 = [0u64; 196];
    let n = word_count(p);
    reencryption_check_in(
        rec,
        p,
        a,
        ek,
        c,
        m0,
        m1,
        g0,
        g1,
        ws,
        cs,
        &mut planes0[0..n],
        &mut planes1[0..n],
    )
}

// For the matrix a: the equal bit. Stage 3's words go to g0 and g1.
pub fn compared(
    rec: Recorder,
    p: Parameters,
    a: &[u16],
    s0: &[u16],
    s1: &[u16],
    public: &[u8],
    c: &[u8],
    ws: &[u64],
    cs: &[u16],
    g0: &mut [u64],
    g1: &mut [u64],
) -> Entered<Shares>
    requires { CompareInput p (shared_list s0.now s1.now) public.now a.now c.now ws.now cs.now
        (shared_list g0.old g1.old) }
    ensures { GivesBit
        ((z : SharedList) → Ran
        (compared_of p
        (record { s = shared_list s0.now s1.now; z = z; public = public.now })
        c.now)
        rec ws.now cs.now
        (record { equal = result.value; g = shared_list g0.new g1.new })
        result.rec (drop (compared_words p) ws.now) (drop (encrypt_coeffs p) cs.now))
        result.value }
{
    let mut m0 = [0u64; 4];
    let mut m1 = [0u64; 4];
    let h = ek_bytes(p);
    let rec = masked_decrypt(rec, p, s0, s1, c, ws, &mut m0, &mut m1);
    let rec = stage3(rec, &m0, &m1, &public[h..], &ws[164..], g0, g1);
    reencryption_check(
        rec,
        p,
        a,
        &public[0..h],
        c,
        &m0,
        &m1,
        g0,
        g1,
        &ws[789..],
        cs,
    )
}
