// A bit in two shares becomes a coefficient in two shares.
ghost use Rattle.std.specs.Prelude.{cond, ◌+◌, ◌*◌, ◌-◌, ◌%◌, ◌^◌, ◌<◌, eqb};
ghost use Rattle.masked_sampler.specs.Coefficient.{table_value, bit_to_coeff};
ghost use Rattle.masked_sampler.specs.Lent.{BitRead};
ghost use Rattle.words.specs.Residue.{q};
ghost use Rattle.worksheet.specs.Prog.{coeff, entry};
ghost use Rattle.worksheet.specs.Ran.{Makes, MakesWith};
ghost use Rattle.worksheet.specs.Sharing.{shares};
ghost use Rattle.worksheet.specs.BitShares.{BitShares};

use worksheet::{Entered, Recorder, Shared, Shares};

// Bit j of both shares.
pub fn bit_of(w: Shares, j: usize) -> Shares
    requires { j < 64 }
    ensures { BitRead w j result }
{
    Shares {
        s0: (w.s0 >> j) % 2,
        s1: (w.s1 >> j) % 2,
    }
}

fn enter_coeff(rec: Recorder, v: u16) -> Entered<u16>
    ensures { Makes (entry v) rec result.value result.rec }
{
    Entered {
        value: v,
        rec: worksheet::enter(rec, v as u64),
    }
}

fn enter_reduced(rec: Recorder, x: u32) -> Entered<u16>
    requires { x < 2 ^ 17 }
    ensures { Makes (entry (x % q)) rec result.value result.rec }
{
    enter_coeff(rec, ring::reduce_short(x))
}

// T[i]
fn enter_table(rec: Recorder, i: u64, b1: u64, w: u16, r: u16) -> Entered<u16>
    requires { (i < 2) × (b1 < 2) }
    ensures { Makes (entry (table_value i b1 w r)) rec result.value result.rec }
{
    enter_reduced(rec, ((i ^ b1) as u32) * (w as u32) + (r as u32))
}

// T[b0]
fn enter_choice(rec: Recorder, b0: u64, t0: u16, t1: u16) -> Entered<u16>
    requires { b0 < 2 }
    ensures { Makes (entry (cond (eqb b0 0) t0 t1)) rec result.value result.rec }
{
    let t = [t0, t1];
    let i = b0 as usize;
    enter_coeff(rec, t[i])
}

fn enter_negated(rec: Recorder, r: u16) -> Entered<u16>
    requires { r < q }
    ensures { Makes (entry ((q - r) % q)) rec result.value result.rec }
{
    enter_reduced(rec, 3329 - (r as u32))
}

pub fn enter_sum(rec: Recorder, x: u16, y: u16) -> Entered<u16>
    ensures { Makes (entry ((x + y) % q)) rec result.value result.rec }
{
    enter_reduced(rec, (x as u32) + (y as u32))
}

pub fn bit_to_coeff(rec: Recorder, w: u16, b: Shares, r: u16) -> Entered<Shared<u16>>
    requires { BitShares b × (r < q) }
    ensures { MakesWith coeff (bit_to_coeff w b) r rec (shares result.value.s0 result.value.s1) result.rec }
{
    let t0 = enter_table(rec, 0, b.s1, w, r);
    let t1 = enter_table(t0.rec, 1, b.s1, w, r);
    let a0 = enter_choice(t1.rec, b.s0, t0.value, t1.value);
    let a1 = enter_negated(a0.rec, r);
    Entered {
        value: Shared {
            s0: a0.value,
            s1: a1.value,
        },
        rec: a1.rec,
    }
}
