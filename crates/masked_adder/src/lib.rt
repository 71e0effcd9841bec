// The adder on the bit planes of 64 numbers at once, on two shares, the lowest plane first.
#![tactic(auto)]

ghost use Rattle.std.specs.Prelude.{◌+◌, ◌-◌, ◌≤◌, get_or, length};
ghost use Rattle.masked_adder.specs.Adder;
ghost use Rattle.masked_adder.specs.Adder.{mask_planes, carry_step, carries, sum_planes, adder_words};
ghost use Rattle.masked_adder.specs.Lent.{AdderLent, CarriesLent};
ghost use Rattle.worksheet.specs.SharedList.{shared_list};
ghost use Rattle.worksheet.specs.Zip.{zip};
ghost use Rattle.words.specs.Word.{xor};
ghost use Rattle.worksheet.specs.Prog.{word, entry};
ghost use Rattle.worksheet.specs.Ran.{Makes, MakesWithLow, Draws};

use worksheet::{Entered, Recorder, Shared, Shares};

// The planes of both shares.
pub type Planes = Shared<[u64; 24]>;

fn enter_xor3(rec: Recorder, x: u64, y: u64, z: u64) -> Entered<u64>
    ensures { Makes (entry (xor (xor x y) z)) rec result.value result.rec }
{
    let v = x ^ y ^ z;
    Entered {
        value: v,
        rec: worksheet::enter(rec, v),
    }
}

// The n planes x take shares.
fn mask_planes(rec: Recorder, n: usize, x: [u64; 24], ws: &[u64]) -> Entered<Planes>
    requires { (n ≤ 24) × (n ≤ length ws.now) }
    ensures { Draws word n (mask_planes n (λ j. get_or x j 0)) rec ws.now
        (zip n (shared_list result.value.s0 result.value.s1)) result.rec }
{
    let mut rec = rec;
    let mut s0 = [0u64; 24];
    let mut s1 = [0u64; 24];
    // By place, as the definition's turns are: planes, masks and both shares are walked side by side.
    for i in 0..n {
        let r = ws[i];
        let e = worksheet::enter_xor(rec, x[i], r);
        s0[i] = e.value;
        s1[i] = r;
        rec = e.rec;
    }
    Entered {
        value: Planes { s0, s1 },
        rec,
    }
}

fn carry_step(rec: Recorder, a: Shares, b: Shares, c: Shares, r: u64) -> Entered<Shares>
    ensures { MakesWithLow 64 (carry_step a b c) r rec result.value result.rec }
{
    let x = worksheet::masked_xor(rec, a, b);
    let y = worksheet::masked_xor(x.rec, a, c);
    let z = worksheet::masked_and(y.rec, x.value, y.value, r);
    worksheet::masked_xor(z.rec, a, z.value)
}

// The carries into the n planes.
fn carry_planes(rec: Recorder, n: usize, a: Planes, b: Planes, ws: &[u64]) -> Entered<Planes>
    requires { CarriesLent n ws.now }
    ensures { Draws word (n - 1)
        (carries n (zip n (shared_list a.s0 a.s1)) (zip n (shared_list b.s0 b.s1))) rec ws.now
        (zip n (shared_list result.value.s0 result.value.s1)) result.rec }
{
    let mut rec = rec;
    let mut s0 = [0u64; 24];
    let mut s1 = [0u64; 24];
    // By place, as the definition's turns are: each carry is made of the one before it, and of planes at its place.
    for i in 0..n - 1 {
        let x = Shares {
            s0: a.s0[i],
            s1: a.s1[i],
        };
        let y = Shares {
            s0: b.s0[i],
            s1: b.s1[i],
        };
        let c = Shares {
            s0: s0[i],
            s1: s1[i],
        };
        let o = carry_step(rec, x, y, c, ws[i]);
        s0[i + 1] = o.value.s0;
        s1[i + 1] = o.value.s1;
        rec = o.rec;
    }
    Entered {
        value: Planes { s0, s1 },
        rec,
    }
}

// The n sum planes.
fn sum_planes(rec: Recorder, n: usize, a: Planes, b: Planes, c: Planes) -> Entered<Planes>
    requires { n ≤ 24 }
    ensures { Makes
        (sum_planes n (zip n (shared_list a.s0 a.s1)) (zip n (shared_list b.s0 b.s1))
        (zip n (shared_list c.s0 c.s1))) rec
        (zip n (shared_list result.value.s0 result.value.s1)) result.rec }
{
    let mut rec = rec;
    let mut s0 = [0u64; 24];
    let mut s1 = [0u64; 24];
    // By place, as the definition's turns are: the shares of four lists of planes are walked side by side.
    for i in 0..n {
        let x = enter_xor3(rec, a.s0[i], b.s0[i], c.s0[i]);
        let y = enter_xor3(x.rec, a.s1[i], b.s1[i], c.s1[i]);
        s0[i] = x.value;
        s1[i] = y.value;
        rec = y.rec;
    }
    Entered {
        value: Planes { s0, s1 },
        rec,
    }
}

// The sum of the numbers whose n planes x and y hold.
pub fn adder(rec: Recorder, n: usize, x: [u64; 24], y: [u64; 24], ws: &[u64]) -> Entered<Planes>
    requires { AdderLent n ws.now }
    ensures { Draws word (adder_words n) (Adder.adder n (λ j. get_or x j 0) (λ j. get_or y j 0)) rec ws.now
        (zip n (shared_list result.value.s0 result.value.s1)) result.rec }
{
    let m = n + n;
    let a = mask_planes(rec, n, x, ws);
    let b = mask_planes(a.rec, n, y, &ws[n..]);
    let c = carry_planes(b.rec, n, a.value, b.value, &ws[m..]);
    sum_planes(c.rec, n, a.value, b.value, c.value)
}
