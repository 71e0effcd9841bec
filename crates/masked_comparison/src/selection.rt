// One of two words in two shares, chosen by a bit in two shares; and n of them by one bit.
ghost use Rattle.std.specs.Prelude.{◌≡◌};
ghost use Rattle.masked_comparison.specs.Comparison;
ghost use Rattle.masked_comparison.specs.Lent.{SelectLent};
ghost use Rattle.worksheet.specs.Prog.{word};
ghost use Rattle.worksheet.specs.Ran.{MakesWithLow, Draws};
ghost use Rattle.worksheet.specs.SharedList.{shared_list};
ghost use Rattle.worksheet.specs.BitShares.{BitShares};

use worksheet::{Entered, Recorder, Shares};

// 64 copies of each share of a bit.
fn copies(b: Shares) -> Shares
    requires { BitShares b }
    ensures { result ≡ Comparison.copies b }
{
    Shares {
        s0: b.s0 * 0xffff_ffff_ffff_ffff,
        s1: b.s1 * 0xffff_ffff_ffff_ffff,
    }
}

// x where the bit is 1, else y.
pub fn select(rec: Recorder, b: Shares, x: Shares, y: Shares, r: u64) -> Entered<Shares>
    requires { BitShares b }
    ensures { MakesWithLow 64 (Comparison.select b x y) r rec result.value result.rec }
{
    let d = worksheet::masked_xor(rec, x, y);
    let z = worksheet::masked_and(d.rec, copies(b), d.value, r);
    worksheet::masked_xor(z.rec, y, z.value)
}

// n words, each by the bit b: those of x where it is 1, else those of y.
pub fn select_all(
    rec: Recorder,
    n: usize,
    b: Shares,
    x0: &[u64],
    x1: &[u64],
    y0: &[u64],
    y1: &[u64],
    ws: &[u64],
    out0: &mut [u64],
    out1: &mut [u64],
) -> Recorder
    requires { SelectLent n b (shared_list x0.now x1.now) (shared_list y0.now y1.now) ws.now
        (shared_list out0.old out1.old) }
    ensures { Draws word n
        (Comparison.select_all n b (shared_list x0.now x1.now)
        (shared_list y0.now y1.now))
        rec ws.now (shared_list out0.new out1.new) result }
{
    let mut rec = rec;
    // By place, as the definition's turns are: seven lists are walked side by side.
    for j in 0..n {
        let x = Shares {
            s0: x0[j],
            s1: x1[j],
        };
        let y = Shares {
            s0: y0[j],
            s1: y1[j],
        };
        let o = select(rec, b, x, y, ws[j]);
        out0[j] = o.value.s0;
        out1[j] = o.value.s1;
        rec = o.rec;
    }
    rec
}
