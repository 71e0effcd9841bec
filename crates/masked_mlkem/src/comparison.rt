// Stage 8: the ciphertext made again is compared with the ciphertext.
ghost use mathlib.Core.List.{flatten};
ghost use Rattle.std.specs.Prelude.{◌≡◌, ◌*◌};
ghost use Rattle.words.specs.Tab.{tab};
ghost use Rattle.codec.specs.Bytes.{byte_decode};
ghost use Rattle.worksheet.specs.Prog.{word};
ghost use Rattle.worksheet.specs.Ran.{Draws};
ghost use Rattle.worksheet.specs.SharedList.{shared_list};
ghost use Rattle.worksheet.specs.Zip.{zip};
ghost use Rattle.vectors.specs.Vector.{parts};
ghost use Rattle.stages.specs.Worksheet.{planes_of, ciphertext_planes, word_count, stage8 as stage8_of};
ghost use Rattle.stages.specs.Counts.{stage8_words};
ghost use Rattle.stages.specs.Lent.{Decoding};
ghost use Rattle.masked_mlkem.specs.Lent.{PlanesInput, PublicInput, EqualInput, EqualWork, GivesBit};

use codec::byte_decode;
use masked_comparison::comparison::{add_public, all_zero};
use parameters::Parameters;
use planes::coefficient_planes;
use slices::{part, write_parts};
use stages::mask_counts::word_count;
use worksheet::{Entered, Recorder, Shares};

// The planes of 256 numbers, group by group.
fn group_planes(f: &[u16], d: usize, out: &mut [u64])
    requires { PlanesInput d f.now out.old }
    ensures { out.new ≡ planes_of d f.now }
{
    write_parts(
        out,
        d,
        4,
        |g, planes| coefficient_planes(&f[64 * g..64 * g + 64], d, planes),
    );
}

// Of an encoded polynomial.
fn encoded_planes(b: &[u8], d: u32, out: &mut [u64])
    requires { Decoding d 1 (4 * d) b.now out.old }
    ensures { out.new ≡ planes_of d (byte_decode d b.now) }
{
    let mut f = [0u16; 256];
    byte_decode(b, d, &mut f);
    group_planes(&f, d as usize, out);
}

// Of k encoded polynomials.
fn first_planes(c: &[u8], d: u32, k: usize, out: &mut [u64])
    requires { Decoding d k (4 * d * k) c.now out.old }
    ensures { out.new
        ≡ flatten (tab k (λ i. planes_of d (byte_decode d (parts (32 * d) c.now i)))) }
{
    let n = 32 * (d as usize);
    let m = 4 * (d as usize);
    write_parts(
        out,
        m,
        k,
        |i, planes| encoded_planes(part(c, n, i), d, planes),
    );
}

// The ciphertext's own planes, which are public.
fn ciphertext_planes(p: Parameters, c: &[u8], out: &mut [u64])
    requires { PublicInput p c.now out.old }
    ensures { out.new ≡ ciphertext_planes p c.now }
{
    let n = 32 * (p.du as usize) * p.k;
    let m = 4 * (p.du as usize) * p.k;
    first_planes(&c[0..n], p.du, p.k, &mut out[0..m]);
    encoded_planes(&c[n..], p.dv, &mut out[m..]);
}

// Stage 8, where public takes the ciphertext's own planes.
fn equal_bit(
    rec: Recorder,
    p: Parameters,
    c: &[u8],
    planes0: &mut [u64],
    planes1: &[u64],
    ws: &[u64],
    public: &mut [u64],
) -> Entered<Shares>
    requires { EqualWork p c.now (shared_list planes0.old planes1.now) ws.now public.old }
    ensures { GivesBit
        (Draws word (stage8_words p)
        (stage8_of p c.now
        (zip (word_count p) (shared_list planes0.old planes1.now)))
        rec ws.now result.value result.rec)
        result.value }
{
    ciphertext_planes(p, c, public);
    let rec = add_public(rec, public, planes0);
    all_zero(rec, public.len() - 1, planes0, planes1, ws)
}

// The equal bit, from stage 7's planes.
pub fn stage8(
    rec: Recorder,
    p: Parameters,
    c: &[u8],
    planes0: &mut [u64],
    planes1: &[u64],
    ws: &[u64],
) -> Entered<Shares>
    requires { EqualInput p c.now (shared_list planes0.old planes1.now) ws.now }
    ensures { GivesBit
        (Draws word (stage8_words p)
        (stage8_of p c.now
        (zip (word_count p) (shared_list planes0.old planes1.now)))
        rec ws.now result.value result.rec)
        result.value }
{
    let mut public = [0u64; 196]; // for the longest ciphertext
    let n = word_count(p);
    equal_bit(rec, p, c, planes0, planes1, ws, &mut public[0..n])
}
