// Cases: records one after the other, all of which are carried out, whether one before them holds or not. The records
// that are repeated repeat none themselves.
use crate::calls;
use test_memory::Kind;
use test_memory::failure::Outcome;
use test_memory::memory::Memory;
use test_memory::record::{Record, Records};

// The kind of a record that repeats others, and that of the first call. An enum over all kinds would be no plainer: it
// needs a case for calls that aren't there, since they put zeros back.
const REPEAT: u32 = 17;

const FIRST_CALL: u32 = 32;

// ---- a record

fn carry_out(r: Record, m: &mut Memory) -> Outcome {
    if r.kind() >= FIRST_CALL {
        return calls::carry_out(r, m);
    }
    Kind::try_from(r.kind())?.carry_out(r, m)
}

fn carry_out_or_repeat(r: Record, m: &mut Memory) -> Outcome {
    if r.kind() == REPEAT {
        return repeat(r.records(), r.low(0), m);
    }
    carry_out(r, m)
}

// ---- records

fn all<F: Fn(Record, &mut Memory) -> Outcome>(records: Records, m: &mut Memory, f: F) -> Outcome
    requires { F.IsAlwaysCallable f }
{
    let mut all = Ok(());
    for r in records {
        all = all.and(f(r, m)).and(r.whole());
    }
    all
}

fn repeat(records: Records, times: u32, m: &mut Memory) -> Outcome {
    let mut all_times = Ok(());
    for _ in 0..times {
        all_times = all_times.and(all(records, m, carry_out));
    }
    all_times
}

// ---- a case

pub fn case(records: &[u8], m: &mut Memory) -> Outcome {
    all(Records::new(records), m, carry_out_or_repeat)
}
