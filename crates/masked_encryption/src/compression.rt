// Stage 7: u and v are compressed.
ghost use Rattle.std.specs.Prelude.{◌+◌, ◌*◌};
ghost use Rattle.worksheet.specs.Prog.{word};
ghost use Rattle.worksheet.specs.Ran.{Draws};
ghost use Rattle.worksheet.specs.SharedList.{shared_list};
ghost use Rattle.worksheet.specs.Zip.{zip};
ghost use Rattle.stages.specs.Worksheet.{word_count, stage7 as stage7_of};
ghost use Rattle.stages.specs.Counts.{compress_poly_words, stage7_words};
ghost use Rattle.stages.specs.Layout.{polynomials};
ghost use Rattle.stages.specs.Lent.{CompressInput};
ghost use Rattle.masked_encryption.specs.Encryption.{compress_polys};
ghost use Rattle.masked_encryption.specs.Lent.{Stage7Input};

use masked_polynomials::groups::compress_groups;
use parameters::Parameters;
use stages::mask_counts::compress_poly_words;
use worksheet::Recorder;

// The planes of k polynomials.
fn compress_polynomials(
    rec: Recorder,
    d: usize,
    k: usize,
    f0: &[u16],
    f1: &[u16],
    ws: &[u64],
    out0: &mut [u64],
    out1: &mut [u64],
) -> Recorder
    requires { CompressInput d (256 * k) (k * compress_poly_words d) (k * (4 * d)) (shared_list f0.now f1.now) ws.now
        (shared_list out0.old out1.old) }
    ensures { Draws word (k * compress_poly_words d) (compress_polys d k (shared_list f0.now f1.now))
        rec ws.now (zip (k * (4 * d)) (shared_list out0.new out1.new)) result }
{
    compress_groups(rec, d, 4 * k, f0, f1, ws, out0, out1)
}

// The planes of u's k polynomials, then of v.
pub fn stage7(
    rec: Recorder,
    p: Parameters,
    uv0: &[u16],
    uv1: &[u16],
    ws: &[u64],
    planes0: &mut [u64],
    planes1: &mut [u64],
) -> Recorder
    requires { Stage7Input p (shared_list uv0.now uv1.now) ws.now (shared_list planes0.old planes1.old) }
    ensures { Draws word (stage7_words p)
        (stage7_of p (polynomials (p.k + 1) (shared_list uv0.now uv1.now)))
        rec ws.now (zip (word_count p) (shared_list planes0.new planes1.new)) result }
{
    let k = p.k;
    let du = p.du as usize;
    let dv = p.dv as usize;
    let v = 256 * k; // where v begins
    let w = k * compress_poly_words(p.du); // its masks
    let o = k * (4 * du); // and its planes
    let rec = compress_polynomials(
        rec,
        du,
        k,
        &uv0[..v],
        &uv1[..v],
        ws,
        &mut planes0[..o],
        &mut planes1[..o],
    );
    compress_groups(
        rec,
        dv,
        4,
        &uv0[v..],
        &uv1[v..],
        &ws[w..],
        &mut planes0[o..],
        &mut planes1[o..],
    )
}
