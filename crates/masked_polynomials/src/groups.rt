// Masked compression of groups of 64 coefficients, one after the other.
ghost use Rattle.std.specs.Prelude.{◌≡◌, ◌+◌, ◌*◌, ◌≤◌, drop};
ghost use Rattle.worksheet.specs.Prog.{word, times};
ghost use Rattle.worksheet.specs.Ran.{Draws};
ghost use Rattle.worksheet.specs.SharedList.{shared_list, shared_at};
ghost use Rattle.worksheet.specs.Zip.{zip};
ghost use Rattle.masked_compression.specs.Compression.{masked_compress};
ghost use Rattle.stages.specs.Layout.{parts_by};
ghost use Rattle.stages.specs.Lent.{Long, CompressInput};

use masked_adder::Planes;
use masked_compression::masked_compress;
use worksheet::Recorder;

// The d planes from place 13 on.
fn top_planes(p: Planes, d: usize, out0: &mut [u64], out1: &mut [u64])
    requires { (d ≤ 11) × Long d (shared_list out0.old out1.old) }
    ensures { zip d (shared_list out0.new out1.new)
        ≡ drop 13 (zip (d + 13) (shared_list p.s0 p.s1)) }
{
    out0.copy_from_slice(&p.s0[13..13 + d]);
    out1.copy_from_slice(&p.s1[13..13 + d]);
}

// The d planes of 64 coefficients.
fn compress_group(
    rec: Recorder,
    d: usize,
    x0: &[u16],
    x1: &[u16],
    ws: &[u64],
    out0: &mut [u64],
    out1: &mut [u64],
) -> Recorder
    requires { CompressInput d 64 (3 * d + 38) d (shared_list x0.now x1.now) ws.now (shared_list out0.old out1.old) }
    ensures { Draws word (3 * d + 38) (masked_compress d (shared_at (shared_list x0.now x1.now)))
        rec ws.now (zip d (shared_list out0.new out1.new)) result }
{
    let e = masked_compress(rec, d, x0, x1, ws);
    top_planes(e.value, d, out0, out1);
    e.rec
}

// The planes of n groups, one after the other.
pub fn compress_groups(
    rec: Recorder,
    d: usize,
    n: usize,
    f0: &[u16],
    f1: &[u16],
    ws: &[u64],
    out0: &mut [u64],
    out1: &mut [u64],
) -> Recorder
    requires { CompressInput d (64 * n) ((3 * d + 38) * n) (d * n) (shared_list f0.now f1.now) ws.now
        (shared_list out0.old out1.old) }
    ensures { Draws word ((3 * d + 38) * n)
        (times n (λ g. masked_compress d (λ i. shared_at (shared_list f0.now f1.now) (64 * g + i))))
        rec ws.now (parts_by (zip d) d n (shared_list out0.new out1.new)) result }
{
    let m = 3 * d + 38; // masks of a group
    let mut rec = rec;
    // By place, as the definition's turns are: both inputs, the masks and both outputs are walked side by side.
    for g in 0..n {
        let a = 64 * g;
        let ae = a + 64;
        let w = m * g;
        let o = d * g;
        let oe = o + d;
        rec = compress_group(
            rec,
            d,
            &f0[a..ae],
            &f1[a..ae],
            &ws[w..],
            &mut out0[o..oe],
            &mut out1[o..oe],
        );
    }
    rec
}
