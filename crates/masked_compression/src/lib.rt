// Compression of 64 coefficients on two shares, for a general depth: fixed point, bit planes and the adder.
#![tactic(auto)]

ghost use Rattle.std.specs.Prelude.{◌≡◌, ◌+◌, ◌*◌, ◌-◌, ◌/◌, ◌^◌, ◌<◌, ◌≤◌, drop, get_or};
ghost use Rattle.masked_compression.specs.Compression.{fixed_point, fixed_points, masked_compress, compress_words};
ghost use Rattle.masked_compression.specs.Lent.{PointFits, PointsLent, CompressLent};
ghost use Rattle.worksheet.specs.SharedList.{shared_list, shared_at};
ghost use Rattle.worksheet.specs.Zip.{zip};
ghost use Rattle.words.specs.Residue.{q};
ghost use Rattle.worksheet.specs.Prog.{word, entry};
ghost use Rattle.worksheet.specs.Ran.{Makes, Draws};

use masked_adder::{Planes, adder};
use planes::bit_planes;
use worksheet::{Entered, Recorder};

// The fixed point of x, 2^(d+13) x / q, without a division: 84552411148 q is 2^48 + 1036.
fn fixed_point(d: usize, x: u16) -> u64
    requires { (d ≤ 11) × (x < q) }
    ensures { (result ≡ 2 ^ (d + 13) * x / q) × (result < 2 ^ 48) }
{
    ((x as u64) * 84552411148) >> (35 - d)
}

// 2^(d+13)
fn scale(d: usize) -> u64
    requires { d ≤ 11 }
    ensures { result ≡ 2 ^ (d + 13) }
{
    1 << (d + 13)
}

fn enter_fixed_point(rec: Recorder, d: usize, h: u64, x: u16) -> Entered<u64>
    requires { PointFits d h × (x < q) }
    ensures { Makes (entry (fixed_point d h x)) rec result.value result.rec }
{
    let v = (fixed_point(d, x) + h) & (scale(d) - 1);
    Entered {
        value: v,
        rec: worksheet::enter(rec, v),
    }
}

// The fixed point of one share of 64 coefficients.
fn fixed_points(rec: Recorder, d: usize, h: u64, x: &[u16]) -> Entered<[u64; 64]>
    requires { PointsLent d h x.now }
    ensures { Makes (fixed_points d h (λ i. get_or x.now i 0)) rec result.value result.rec }
{
    let mut rec = rec;
    let mut v = [0u64; 64];
    for (i, n) in v.iter_mut().enumerate() {
        let e = enter_fixed_point(rec, d, h, x[i]);
        *n = e.value;
        rec = e.rec;
    }
    Entered { value: v, rec }
}

// The result's d planes stand from place 13 on.
pub fn masked_compress(
    rec: Recorder,
    d: usize,
    x0: &[u16],
    x1: &[u16],
    ws: &[u64],
) -> Entered<Planes>
    requires { CompressLent d x0.now x1.now ws.now }
    ensures { Draws word (compress_words d)
        (masked_compress d (shared_at (shared_list x0.now x1.now))) rec ws.now
        (drop 13 (zip (d + 13) (shared_list result.value.s0 result.value.s1))) result.rec }
{
    let n = d + 13;
    let a = fixed_points(rec, d, 0, x0);
    let b = fixed_points(a.rec, d, 4096, x1);
    let x = bit_planes(&a.value, n);
    let y = bit_planes(&b.value, n);
    adder(b.rec, n, x, y, ws)
}
