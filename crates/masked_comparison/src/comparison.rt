// Words in two shares folded to one bit, which is 1 where all of them are 0.
ghost use Rattle.std.specs.Prelude.{List, ◌≡◌, ℕ, ◌+◌, ◌-◌, ◌^◌, ◌<◌, ◌≤◌, get_or, length};
ghost use Rattle.masked_comparison.specs.Comparison;
ghost use Rattle.masked_comparison.specs.Comparison.{add_public, fold_or, all_zero, all_zero_words};
ghost use Rattle.masked_comparison.specs.Lent.{FoldLent};
ghost use Rattle.worksheet.specs.SharedList.{shared_list, shared_at};
ghost use Rattle.worksheet.specs.Zip.{zip};
ghost use Rattle.words.specs.Word;
ghost use Rattle.words.specs.Word.{low};
ghost use Rattle.worksheet.specs.Prog.{word};
ghost use Rattle.worksheet.specs.Ran.{Makes, MakesWith, Draws};

use worksheet::{Entered, Recorder, Shares};

// Public words go into share 0.
pub fn add_public(rec: Recorder, c: &[u64], w0: &mut [u64]) -> Recorder
    requires { length c.now ≡ length w0.old }
    ensures { (w1 : List ℕ)
        → Makes
        (add_public (length c.now) (λ j. get_or c.now j 0)
        (shared_at (shared_list w0.old w1)))
        rec (zip (length c.now) (shared_list w0.new w1)) result }
{
    let mut rec = rec;
    for (j, w) in w0.iter_mut().enumerate() {
        let e = worksheet::enter_xor(rec, *w, c[j]);
        *w = e.value;
        rec = e.rec;
    }
    rec
}

// All words are folded into the first by Or.
fn fold_or(rec: Recorder, n: usize, w0: &[u64], w1: &[u64], ws: &[u64]) -> Entered<Shares>
    requires { FoldLent n n w0.now w1.now ws.now }
    ensures { Draws word n (fold_or n (shared_at (shared_list w0.now w1.now))) rec ws.now
        result.value result.rec }
{
    let mut rec = rec;
    let mut acc = Shares {
        s0: w0[0],
        s1: w1[0],
    };
    // By place, as the definition's turns are: both shares and the masks are walked side by side.
    for j in 0..n {
        let w = Shares {
            s0: w0[j + 1],
            s1: w1[j + 1],
        };
        let o = worksheet::masked_or(rec, acc, w, 0xffff_ffff_ffff_ffff, ws[j]);
        acc = o.value;
        rec = o.rec;
    }
    Entered { value: acc, rec }
}

// The h lowest bits set.
fn ones(h: usize) -> u64
    requires { h ≤ 32 }
    ensures { result ≡ Word.ones h }
{
    (1 << h) - 1
}

fn low_bits(x: u64, h: usize) -> u64
    requires { h ≤ 32 }
    ensures { result ≡ low h x }
{
    x & ones(h)
}

// The low h bits Or the next h.
fn halve(rec: Recorder, h: usize, w: Shares, r: u64) -> Entered<Shares>
    requires { h ≤ 32 }
    ensures { MakesWith word (Comparison.halve h w) r rec result.value result.rec }
{
    let a = Shares {
        s0: low_bits(w.s0, h),
        s1: low_bits(w.s1, h),
    };
    let b = Shares {
        s0: w.s0 >> h,
        s1: w.s1 >> h,
    };
    worksheet::masked_or(rec, a, b, ones(h), low_bits(r, h))
}

// 32, 16, 8, 4, 2, 1
fn half_width(j: usize) -> usize
    requires { j < 6 }
    ensures { (result ≡ 2 ^ (6 - 1 - j)) × (result ≤ 32) }
{
    32 >> j
}

fn halves(rec: Recorder, w: Shares, ws: &[u64]) -> Entered<Shares>
    requires { 6 ≤ length ws.now }
    ensures { Draws word 6 (Comparison.halves 6 w) rec ws.now result.value result.rec }
{
    let mut rec = rec;
    let mut acc = w;
    // By place, as the definition's turns are: the width is made of the place.
    for j in 0..6 {
        let o = halve(rec, half_width(j), acc, ws[j]);
        acc = o.value;
        rec = o.rec;
    }
    Entered { value: acc, rec }
}

// Of n + 1 words.
pub fn all_zero(rec: Recorder, n: usize, w0: &[u64], w1: &[u64], ws: &[u64]) -> Entered<Shares>
    requires { FoldLent n (all_zero_words n) w0.now w1.now ws.now }
    ensures { Draws word (all_zero_words n) (all_zero n (shared_at (shared_list w0.now w1.now)))
        rec ws.now result.value result.rec }
{
    let f = fold_or(rec, n, w0, w1, ws);
    let b = halves(f.rec, f.value, &ws[n..]);
    worksheet::masked_not(b.rec, b.value, 1)
}
