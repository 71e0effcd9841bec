// Stages 1 and 2 of masked decapsulation (document 01, The worksheet): decryption on two shares, for a parameter set.
// Each function is handed the strip from its first mask on.
#![tactic(auto)]

ghost use Rattle.std.specs.Prelude.{map, ◌≡◌, ◌*◌};
ghost use Rattle.codec.specs.Bytes.{byte_decode};
ghost use Rattle.codec.specs.Compress.{decompress};
ghost use Rattle.ring.specs.Polynomial.{sub};
ghost use Rattle.transform.specs.Transform.{ntt as ntt_of, inverse_ntt};
ghost use Rattle.worksheet.specs.Prog.{word};
ghost use Rattle.worksheet.specs.Ran.{Draws};
ghost use Rattle.worksheet.specs.SharedList.{shared_list};
ghost use Rattle.vectors.specs.Vector.{parts, concat, dot as dot_of};
ghost use Rattle.kpke.specs.KPke.{first_decoded, second_decoded};
ghost use Rattle.stages.specs.Worksheet.{stage1 as stage1_of, stage2 as stage2_of, masked_decrypt};
ghost use Rattle.stages.specs.Counts.{stage2_words, decrypt_words};
ghost use Rattle.stages.specs.MakesResidues.{MakesResidues};
ghost use Rattle.stages.specs.Lent.{CompressInput, Decoding};
ghost use Rattle.masked_decryption.specs.Lent.{PartInput, Product, NoisyInput, NoisyWork, DecryptInput};

use codec::{byte_decode, decompress_all};
use masked_polynomials::groups::compress_groups;
use masked_polynomials::passes::enter_both;
use parameters::Parameters;
use ring::sub_from;
use slices::{part, write_parts};
use transform::inverse_ntt;
use vectors::{clear, dot, ntt_all};
use worksheet::Recorder;

// The polynomial that b holds at depth d.
fn decoded(b: &[u8], d: u32, f: &mut [u16])
    requires { Decoding d 1 256 b.now f.old }
    ensures { f.new ≡ map (decompress d) (byte_decode d b.now) }
{
    byte_decode(b, d, f);
    decompress_all(f, d);
}

// The k polynomials that b holds.
fn decoded_all(b: &[u8], d: u32, k: usize, u: &mut [u16])
    requires { Decoding d k (256 * k) b.now u.old }
    ensures { u.new ≡ concat k (λ i. map (decompress d) (byte_decode d (parts (32 * d) b.now i))) }
{
    let n = 32 * (d as usize);
    write_parts(u, 256, k, |i, f| decoded(part(b, n, i), d, f));
}

// The transforms of the polynomials that the ciphertext's first part holds.
fn transformed_first(p: Parameters, c: &[u8], u: &mut [u16])
    requires { PartInput p (256 * p.k) c.now u.old }
    ensures { u.new ≡ concat p.k (λ i. ntt_of (first_decoded p c.now i)) }
{
    let n = 32 * (p.du as usize) * p.k;
    decoded_all(&c[0..n], p.du, p.k, u);
    ntt_all(u, p.k);
}

// The polynomial that the ciphertext's second part holds.
fn decoded_second(p: Parameters, c: &[u8], v: &mut [u16])
    requires { PartInput p 256 c.now v.old }
    ensures { v.new ≡ second_decoded p c.now }
{
    let n = 32 * (p.du as usize) * p.k;
    decoded(&c[n..], p.dv, v);
}

// A pass on one share: its product with u, transformed back, is taken from w.
fn take_product(s: &[u16], u: &[u16], k: usize, w: &mut [u16])
    requires { Product k s.now u.now w.old }
    ensures { w.new
        ≡ sub w.old (inverse_ntt (dot_of k (parts 256 s.now) (parts 256 u.now))) }
{
    let mut f = [0u16; 256];
    dot(s, 0, 1, u, k, &mut f);
    inverse_ntt(&mut f);
    sub_from(w, &f);
}

// Stage 1, where u takes the transforms of the ciphertext's first part.
fn noisy_message(
    rec: Recorder,
    p: Parameters,
    s0: &[u16],
    s1: &[u16],
    c: &[u8],
    u: &mut [u16],
    w0: &mut [u16],
    w1: &mut [u16],
) -> Recorder
    requires { NoisyWork p (shared_list s0.now s1.now) c.now u.old (shared_list w0.old w1.old) }
    ensures { MakesResidues (stage1_of p (shared_list s0.now s1.now) c.now)
        rec 256 (λ w. w) (shared_list w0.new w1.new) result }
{
    transformed_first(p, c, u);
    decoded_second(p, c, w0);
    take_product(s0, u, p.k, w0);
    clear(w1);
    take_product(s1, u, p.k, w1);
    enter_both(rec, w0, w1)
}

// The noisy message.
fn stage1(
    rec: Recorder,
    p: Parameters,
    s0: &[u16],
    s1: &[u16],
    c: &[u8],
    w0: &mut [u16],
    w1: &mut [u16],
) -> Recorder
    requires { NoisyInput p (shared_list s0.now s1.now) c.now (shared_list w0.old w1.old) }
    ensures { MakesResidues (stage1_of p (shared_list s0.now s1.now) c.now)
        rec 256 (λ w. w) (shared_list w0.new w1.new) result }
{
    let mut u = [0u16; 1024]; // for the highest rank
    let n = 256 * p.k;
    noisy_message(rec, p, s0, s1, c, &mut u[0..n], w0, w1)
}

// m', four words.
fn stage2(
    rec: Recorder,
    w0: &[u16],
    w1: &[u16],
    ws: &[u64],
    m0: &mut [u64],
    m1: &mut [u64],
) -> Recorder
    requires { CompressInput 1 256 stage2_words 4 (shared_list w0.now w1.now) ws.now (shared_list m0.old m1.old) }
    ensures { Draws word stage2_words (stage2_of (shared_list w0.now w1.now))
        rec ws.now (shared_list m0.new m1.new) result }
{
    compress_groups(rec, 1, 4, w0, w1, ws, m0, m1)
}

// m' of the ciphertext c, four words.
pub fn masked_decrypt(
    rec: Recorder,
    p: Parameters,
    s0: &[u16],
    s1: &[u16],
    c: &[u8],
    ws: &[u64],
    m0: &mut [u64],
    m1: &mut [u64],
) -> Recorder
    requires { DecryptInput p (shared_list s0.now s1.now) c.now ws.now (shared_list m0.old m1.old) }
    ensures { Draws word decrypt_words (masked_decrypt p (shared_list s0.now s1.now) c.now)
        rec ws.now (shared_list m0.new m1.new) result }
{
    let mut w0 = [0u16; 256];
    let mut w1 = [0u16; 256];
    let rec = stage1(rec, p, s0, s1, c, &mut w0, &mut w1);
    stage2(rec, &w0, &w1, ws, m0, m1)
}
