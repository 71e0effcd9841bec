// The gates on sharings, at any width: complement, exclusive or, And and Or.
ghost use Rattle.std.specs.Prelude.{◌≡◌, ℕ};
ghost use Rattle.words.specs.Word.{ones as ones_of};
ghost use Rattle.worksheet.specs.Gates.{masked_not, masked_xor, masked_or};
ghost use Rattle.worksheet.specs.MaskedAnd.{masked_and};
ghost use Rattle.worksheet.specs.Ran.{Makes, MakesWithLow};

use crate::{Entered, Recorder, Shares, enter_and, enter_complement, enter_xor};

// The complement at the width of `ones`, whose bits are all 1.
pub fn masked_not(rec: Recorder, u: Shares, ones: u64) -> Entered<Shares>
    ensures { (w : ℕ) → ones ≡ ones_of w → Makes (masked_not w u) rec result.value result.rec }
{
    let n = enter_complement(rec, u.s0, ones);
    Entered {
        value: Shares {
            s0: n.value,
            s1: u.s1,
        },
        rec: n.rec,
    }
}

pub fn masked_xor(rec: Recorder, u: Shares, v: Shares) -> Entered<Shares>
    ensures { Makes (masked_xor u v) rec result.value result.rec }
{
    let a = enter_xor(rec, u.s0, v.s0);
    let b = enter_xor(a.rec, u.s1, v.s1);
    Entered {
        value: Shares {
            s0: a.value,
            s1: b.value,
        },
        rec: b.rec,
    }
}

// With the mask r, at the width of that mask.
pub fn masked_and(rec: Recorder, u: Shares, v: Shares, r: u64) -> Entered<Shares>
    ensures { (w : ℕ) → MakesWithLow w (masked_and w u v) r rec result.value result.rec }
{
    let t1 = enter_and(rec, u.s0, v.s1);
    let t2 = enter_xor(t1.rec, t1.value, r);
    let t3 = enter_and(t2.rec, u.s0, v.s0);
    let z0 = enter_xor(t3.rec, t3.value, t2.value);
    let t5 = enter_and(z0.rec, u.s1, v.s0);
    let t6 = enter_xor(t5.rec, t5.value, r);
    let t7 = enter_and(t6.rec, u.s1, v.s1);
    let z1 = enter_xor(t7.rec, t7.value, t6.value);
    Entered {
        value: Shares {
            s0: z0.value,
            s1: z1.value,
        },
        rec: z1.rec,
    }
}

// At the width of `ones` and of the mask r.
pub fn masked_or(rec: Recorder, u: Shares, v: Shares, ones: u64, r: u64) -> Entered<Shares>
    ensures { (w : ℕ) → ones ≡ ones_of w → MakesWithLow w (masked_or w u v) r rec result.value result.rec }
{
    let a = masked_not(rec, u, ones);
    let b = masked_not(a.rec, v, ones);
    let z = masked_and(b.rec, a.value, b.value, r);
    masked_not(z.rec, z.value, ones)
}
