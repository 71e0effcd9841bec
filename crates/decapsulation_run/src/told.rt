// The one function behind decapsulation and trace, once the lengths are exact: rows 5 to 8, then the worksheet. `left`
// is 0 for no step and t + 1 for step t.
ghost use Rattle.std.specs.Prelude.{◌≡◌, ◌*◌, length};
ghost use Rattle.worksheet.specs.SharedList.{shared_list};
ghost use Rattle.refusals.specs.Refusals.{number};
ghost use Rattle.decapsulation_run.specs.Lent.{input_of};
ghost use Rattle.decapsulation_run.specs.Told.{Told};
ghost use Rattle.decapsulation_run.specs.Sized.{CallSized};

use crate::input::Input;
use crate::ranges::range_rows;
use crate::worksheet_run::run;
use parameters::{Edition, Parameters};
use refusals::{Answer, Refusal};
use stages::entry_counts::steps;
use worksheet::Recorder;

// Where a takes the matrix A-hat.
fn decapsulate_in(
    left: u64,
    e: Edition,
    p: Parameters,
    input: &Input,
    a: &mut [u16],
    k0: &mut [u64],
    k1: &mut [u64],
    value: &mut u64,
) -> Answer
    requires { CallSized e p (input_of input.now) (shared_list k0.old k1.old)
        × (length a.old ≡ 256 * p.k * p.k) }
    ensures { Told e p left (input_of input.now) k0.old k1.old value.old (number result)
        k0.new k1.new value.new }
{
    range_rows(p, input, a)?;
    if left > steps(e, p) as u64 {
        return Err(Refusal::NoSuchStep);
    }
    let rec = Recorder { left, value: 0 };
    let last = run(rec, e, p, a, input, k0, k1);
    *value = last.value;
    Ok(())
}

pub fn decapsulate(
    left: u64,
    e: Edition,
    p: Parameters,
    input: &Input,
    k0: &mut [u64],
    k1: &mut [u64],
    value: &mut u64,
) -> Answer
    requires { CallSized e p (input_of input.now) (shared_list k0.old k1.old) }
    ensures { Told e p left (input_of input.now) k0.old k1.old value.old (number result)
        k0.new k1.new value.new }
{
    let mut a = [0u16; 4096]; // for the highest rank
    let n = 256 * p.k * p.k;
    decapsulate_in(left, e, p, input, &mut a[0..n], k0, k1, value)
}
