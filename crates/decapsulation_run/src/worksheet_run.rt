// The worksheet: stages 1 to 8, then the edition's ending.
ghost use Rattle.std.specs.Prelude.{drop};
ghost use Rattle.worksheet.specs.Ran.{Ran};
ghost use Rattle.worksheet.specs.SharedList.{shared_list};
ghost use Rattle.stages.specs.Worksheet.{worksheet as worksheet_of};
ghost use Rattle.stages.specs.Counts.{strip_words, strip_coeffs};
ghost use Rattle.decapsulation_run.specs.Lent.{input_of};
ghost use Rattle.decapsulation_run.specs.Sized.{Runnable};

use crate::input::Input;
use decapsulation_compared::compared;
use decapsulation_endings::ending;
use parameters::{Edition, Parameters};
use stages::mask_counts::compared_words;
use worksheet::Recorder;

// For the matrix a; k0 and k1 take the shares of K.
pub fn run(
    rec: Recorder,
    e: Edition,
    p: Parameters,
    a: &[u16],
    input: &Input,
    k0: &mut [u64],
    k1: &mut [u64],
) -> Recorder
    requires { Runnable e p (input_of input.now) a.now (shared_list k0.old k1.old) }
    ensures { let g = input_of input.now in
        Ran (worksheet_of e p g.key g.ct) rec g.words g.coeffs (shared_list k0.new k1.new) result
        (drop (strip_words e p) g.words) (drop (strip_coeffs p) g.coeffs) }
{
    let mut g0 = [0u64; 8];
    let mut g1 = [0u64; 8];
    let w = compared_words(p);
    let key = input.key;
    let b = compared(
        rec,
        p,
        a,
        key.s0,
        key.s1,
        key.public,
        input.ct,
        input.words,
        input.coeffs,
        &mut g0,
        &mut g1,
    );
    ending(
        b.rec,
        e,
        p,
        b.value,
        &g0,
        &g1,
        key.z0,
        key.z1,
        input.ct,
        &input.words[w..],
        k0,
        k1,
    )
}
