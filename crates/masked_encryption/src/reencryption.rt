// Stage 6: re-encryption, share by share.
ghost use Rattle.std.specs.Prelude.{◌≡◌, ◌+◌, ◌*◌, length, take};
ghost use Rattle.worksheet.specs.SharedList.{shared_list};
ghost use Rattle.stages.specs.Worksheet.{stage6 as stage6_of};
ghost use Rattle.stages.specs.Layout.{polynomials};
ghost use Rattle.stages.specs.MakesResidues.{MakesResidues};
ghost use Rattle.masked_encryption.specs.Lent.{ReencryptInput};

use masked_encryption_passes::uv_in_place;
use masked_polynomials::passes::enter_polynomials;
use parameters::{Parameters, vector_bytes};
use vectors::decode12_all;
use worksheet::Recorder;

// stage6, with room in t for the public vector.
fn reencrypt(
    rec: Recorder,
    p: Parameters,
    a: &[u16],
    ek: &[u8],
    n0: &mut [u16],
    n1: &mut [u16],
    mu0: &[u16],
    mu1: &[u16],
    t: &mut [u16],
) -> Recorder
    requires { ReencryptInput p ek.now a.now (shared_list n0.old n1.old) (shared_list mu0.now mu1.now)
        × (length t.old ≡ 256 * p.k) }
    ensures { MakesResidues
        (stage6_of p ek.now (polynomials (2 * p.k + 1) (shared_list n0.old n1.old))
        (shared_list mu0.now mu1.now))
        rec (256 * (p.k + 1)) (polynomials (p.k + 1))
        (shared_list (take (256 * (p.k + 1)) n0.new) (take (256 * (p.k + 1)) n1.new)) result }
{
    let k = p.k;
    let b = vector_bytes(p);
    let e = 256 * (k + 1);
    decode12_all(&ek[0..b], k, t);
    uv_in_place(a, t, n0, mu0, k);
    uv_in_place(a, t, n1, mu1, k);
    enter_polynomials(rec, k + 1, &n0[0..e], &n1[0..e])
}

// u and v, for the matrix a, in the first places of the noise.
pub fn stage6(
    rec: Recorder,
    p: Parameters,
    a: &[u16],
    ek: &[u8],
    n0: &mut [u16],
    n1: &mut [u16],
    mu0: &[u16],
    mu1: &[u16],
) -> Recorder
    requires { ReencryptInput p ek.now a.now (shared_list n0.old n1.old) (shared_list mu0.now mu1.now) }
    ensures { MakesResidues
        (stage6_of p ek.now (polynomials (2 * p.k + 1) (shared_list n0.old n1.old))
        (shared_list mu0.now mu1.now))
        rec (256 * (p.k + 1)) (polynomials (p.k + 1))
        (shared_list (take (256 * (p.k + 1)) n0.new) (take (256 * (p.k + 1)) n1.new)) result }
{
    // Room for the highest rank, as there is no heap.
    let mut t = [0u16; 1024];
    let n = 256 * p.k;
    reencrypt(rec, p, a, ek, n0, n1, mu0, mu1, &mut t[0..n])
}
