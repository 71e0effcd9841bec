// A run that is told a step number or none, as a recorder is.
#![tactic(auto)]

ghost use Rattle.std.specs.Prelude.{◌≡◌, ◌-◌, ◌^◌, ◌<◌};
ghost use Rattle.tracing.specs.Told.{left_of};

// What a recorder is told for a step of a run of so many: a step past its end is told as one past it.
pub fn left_of(step: u64, steps: u64) -> u64
    requires { steps < 2 ^ 64 - 1 }
    ensures { result ≡ left_of step steps }
{
    if step < steps {
        return step + 1;
    }
    steps + 1
}
