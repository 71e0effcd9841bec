// The outcome of a pass on each share is entered: share 0's values, then share 1's.
ghost use Rattle.std.specs.Prelude.{◌≡◌, ◌*◌, length, get_or};
ghost use Rattle.worksheet.specs.Pass.{entries, enter_both};
ghost use Rattle.worksheet.specs.Prog.{times};
ghost use Rattle.worksheet.specs.Ran.{Makes};
ghost use Rattle.worksheet.specs.SharedList.{shared_list};
ghost use Rattle.vectors.specs.Vector.{parts};
ghost use Rattle.stages.specs.Layout.{polynomials};
ghost use Rattle.stages.specs.Lent.{Long};

use worksheet::Recorder;

fn enter_share(rec: Recorder, f: &[u16]) -> Recorder
    ensures { Makes (entries (length f.now) (λ i. get_or f.now i 0)) rec f.now result }
{
    let mut rec = rec;
    for x in f {
        rec = worksheet::enter(rec, *x as u64);
    }
    rec
}

pub fn enter_both(rec: Recorder, f: &[u16], g: &[u16]) -> Recorder
    requires { length f.now ≡ length g.now }
    ensures { Makes (enter_both (length f.now) f.now g.now)
        rec (shared_list f.now g.now) result }
{
    let rec = enter_share(rec, f);
    enter_share(rec, g)
}

// The k polynomials one by one.
pub fn enter_polynomials(rec: Recorder, k: usize, f: &[u16], g: &[u16]) -> Recorder
    requires { Long (256 * k) (shared_list f.now g.now) }
    ensures { Makes (times k (λ i. enter_both 256 (parts 256 f.now i) (parts 256 g.now i)))
        rec (polynomials k (shared_list f.now g.now)) result }
{
    let mut rec = rec;
    // By place, as the definition's turns are: parts of both shares.
    for i in 0..k {
        let a = 256 * i;
        let e = a + 256;
        rec = enter_both(rec, &f[a..e], &g[a..e]);
    }
    rec
}
