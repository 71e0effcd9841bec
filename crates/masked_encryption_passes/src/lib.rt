// Stage 6 of masked decapsulation on one share (document 01, The worksheet): u and v, made of the noise and the
// message's polynomial. masked_encryption makes the pass on each of the two shares and enters what it gives.
#![tactic(auto)]

ghost use Rattle.std.specs.Prelude.{◌≡◌, ◌++◌, ◌+◌, ◌*◌, ◌≤◌, take};
ghost use Rattle.vectors.specs.Vector.{parts, concat};
ghost use Rattle.kpke.specs.Expanded.{places_of};
ghost use Rattle.masked_encryption_passes.specs.Passes.{u_pass, v_pass, uv_pass};
ghost use Rattle.masked_encryption_passes.specs.Lent.{RowsInput, LastInput, PassesInput, ShareInput, PassInput};

use ring::add_to;
use slices::{copy_coefficients, part, write_parts};
use transform::inverse_ntt;
use vectors::{dot, ntt_all};

// Row i of u, for the matrix a, the transformed y and row i of e1.
fn u_pass(a: &[u16], y: &[u16], e1: &[u16], k: usize, i: usize, u: &mut [u16])
    requires { RowsInput k i 1 a.now y.now e1.now u.old }
    ensures { u.new ≡ u_pass k (places_of k a.now) (parts 256 y.now) e1.now i }
{
    dot(a, i, k, y, k, u);
    inverse_ntt(u);
    add_to(u, e1);
}

// The rows.
fn u_passes(a: &[u16], y: &[u16], e1: &[u16], k: usize, u: &mut [u16])
    requires { RowsInput k 0 k a.now y.now e1.now u.old }
    ensures { u.new
        ≡ concat k (λ i.
        u_pass k (places_of k a.now) (parts 256 y.now) (parts 256 e1.now i) i) }
{
    write_parts(u, 256, k, |i, f| u_pass(a, y, part(e1, 256, i), k, i, f));
}

fn v_pass(t: &[u16], y: &[u16], e2: &[u16], mu: &[u16], k: usize, v: &mut [u16])
    requires { LastInput k t.now y.now e2.now mu.now v.old }
    ensures { v.new
        ≡ v_pass k (parts 256 t.now) (parts 256 y.now) e2.now mu.now }
{
    dot(t, 0, 1, y, k, v);
    inverse_ntt(v);
    add_to(v, e2);
    add_to(v, mu);
}

// The passes of u, then that of v, for the transformed y.
fn uv_passes(
    a: &[u16],
    t: &[u16],
    y: &[u16],
    e1: &[u16],
    e2: &[u16],
    mu: &[u16],
    k: usize,
    uv: &mut [u16],
)
    requires { PassesInput k a.now t.now y.now e1.now e2.now mu.now uv.old }
    ensures { uv.new
        ≡ concat k (λ i.
        u_pass k (places_of k a.now) (parts 256 y.now) (parts 256 e1.now i) i)
        ++ v_pass k (parts 256 t.now) (parts 256 y.now) e2.now mu.now }
{
    let v = 256 * k; // where v begins
    u_passes(a, y, e1, k, &mut uv[0..v]);
    v_pass(t, y, e2, mu, k, &mut uv[v..]);
}

// A pass on one share, of which n holds y, e1 and e2: u, then v. It transforms y where it stands.
fn uv_pass(a: &[u16], t: &[u16], n: &mut [u16], mu: &[u16], k: usize, uv: &mut [u16])
    requires { PassInput k a.now t.now n.old mu.now uv.old }
    ensures { uv.new
        ≡ uv_pass k (places_of k a.now) (parts 256 t.now) (parts 256 n.old)
        mu.now }
{
    let e1 = 256 * k;
    let e2 = e1 + e1;
    ntt_all(&mut n[0..e1], k);
    uv_passes(a, t, &n[0..e1], &n[e1..e2], &n[e2..], mu, k, uv);
}

// u and v of one share are made in uv, and then take the first places of its noise.
fn uv_over(a: &[u16], t: &[u16], n: &mut [u16], mu: &[u16], k: usize, uv: &mut [u16])
    requires { PassInput k a.now t.now n.old mu.now uv.old }
    ensures { take (256 * (k + 1)) n.new
        ≡ uv_pass k (places_of k a.now) (parts 256 t.now) (parts 256 n.old)
        mu.now }
{
    let e = 256 * (k + 1);
    uv_pass(a, t, n, mu, k, uv);
    copy_coefficients(uv, &mut n[0..e]);
}

// The same, with room of its own.
pub fn uv_in_place(a: &[u16], t: &[u16], n: &mut [u16], mu: &[u16], k: usize)
    requires { ShareInput k a.now t.now n.old mu.now × (k ≤ 4) }
    ensures { take (256 * (k + 1)) n.new
        ≡ uv_pass k (places_of k a.now) (parts 256 t.now) (parts 256 n.old)
        mu.now }
{
    // Room for the highest rank, as there is no heap.
    let mut uv = [0u16; 1280];
    let e = 256 * (k + 1);
    uv_over(a, t, n, mu, k, &mut uv[0..e]);
}
