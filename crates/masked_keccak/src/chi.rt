// Chi on two shares, row by row.
ghost use Rattle.std.specs.Prelude.{◌≤◌, length};
ghost use Rattle.worksheet.specs.Prog.{word};
ghost use Rattle.worksheet.specs.Ran.{MakesWith, Draws};
ghost use Rattle.worksheet.specs.Zip.{zip};
ghost use Rattle.masked_keccak.specs.MaskedKeccak.{chi_lane, masked_chi};
ghost use Rattle.masked_keccak.specs.SharedRows.{shared_state, shared_row, masked_chi_row};

use keccak::row::Row;
use keccak::state::State;
use worksheet::{Entered, Recorder, Shared, Shares, masked_and, masked_not, masked_xor};

// The lane w with u and v, the next two of its row, and the mask r.
fn chi_lane(rec: Recorder, w: Shares, u: Shares, v: Shares, r: u64) -> Entered<Shares>
    ensures { MakesWith word (chi_lane w u v) r rec result.value result.rec }
{
    let n = masked_not(rec, u, 0xffff_ffff_ffff_ffff);
    let z = masked_and(n.rec, n.value, v, r);
    masked_xor(z.rec, w, z.value)
}

// A row, with five masks.
fn chi_row(rec: Recorder, x: Shared<Row>, ws: &[u64]) -> Entered<Shared<Row>>
    requires { 5 ≤ length ws.now }
    ensures { Draws word 5 (masked_chi_row (shared_row x.s0 x.s1)) rec ws.now
        (zip 5 (shared_row result.value.s0 result.value.s1)) result.rec }
{
    let a = Shares {
        s0: x.s0.a,
        s1: x.s1.a,
    };
    let b = Shares {
        s0: x.s0.b,
        s1: x.s1.b,
    };
    let c = Shares {
        s0: x.s0.c,
        s1: x.s1.c,
    };
    let d = Shares {
        s0: x.s0.d,
        s1: x.s1.d,
    };
    let e = Shares {
        s0: x.s0.e,
        s1: x.s1.e,
    };
    let z0 = chi_lane(rec, a, b, c, ws[0]);
    let z1 = chi_lane(z0.rec, b, c, d, ws[1]);
    let z2 = chi_lane(z1.rec, c, d, e, ws[2]);
    let z3 = chi_lane(z2.rec, d, e, a, ws[3]);
    let z4 = chi_lane(z3.rec, e, a, b, ws[4]);
    let s0 = Row {
        a: z0.value.s0,
        b: z1.value.s0,
        c: z2.value.s0,
        d: z3.value.s0,
        e: z4.value.s0,
    };
    let s1 = Row {
        a: z0.value.s1,
        b: z1.value.s1,
        c: z2.value.s1,
        d: z3.value.s1,
        e: z4.value.s1,
    };
    Entered {
        value: Shared { s0, s1 },
        rec: z4.rec,
    }
}

// With 25 masks.
pub(crate) fn chi(rec: Recorder, s: Shared<State>, ws: &[u64]) -> Entered<Shared<State>>
    requires { 25 ≤ length ws.now }
    ensures { Draws word 25 (masked_chi (shared_state s.s0 s.s1)) rec ws.now
        (zip 25 (shared_state result.value.s0 result.value.s1)) result.rec }
{
    let x0 = Shared {
        s0: s.s0.row_at(0),
        s1: s.s1.row_at(0),
    };
    let x1 = Shared {
        s0: s.s0.row_at(5),
        s1: s.s1.row_at(5),
    };
    let x2 = Shared {
        s0: s.s0.row_at(10),
        s1: s.s1.row_at(10),
    };
    let x3 = Shared {
        s0: s.s0.row_at(15),
        s1: s.s1.row_at(15),
    };
    let x4 = Shared {
        s0: s.s0.row_at(20),
        s1: s.s1.row_at(20),
    };
    let r0 = chi_row(rec, x0, ws);
    let r1 = chi_row(r0.rec, x1, &ws[5..]);
    let r2 = chi_row(r1.rec, x2, &ws[10..]);
    let r3 = chi_row(r2.rec, x3, &ws[15..]);
    let r4 = chi_row(r3.rec, x4, &ws[20..]);
    let s0 = State::from_rows(
        r0.value.s0,
        r1.value.s0,
        r2.value.s0,
        r3.value.s0,
        r4.value.s0,
    );
    let s1 = State::from_rows(
        r0.value.s1,
        r1.value.s1,
        r2.value.s1,
        r3.value.s1,
        r4.value.s1,
    );
    Entered {
        value: Shared { s0, s1 },
        rec: r4.rec,
    }
}
