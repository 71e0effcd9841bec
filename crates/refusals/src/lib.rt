// A call's answer, its number in documents 01 and 02, and the tests of lengths, of coefficients and of equal strings.
#![tactic(auto)]

ghost use Rattle.std.specs.Prelude.{◌≡◌, ◌≤◌, length};
ghost use Rattle.refusals.specs.Refusals.{number as number_of};
ghost use Rattle.refusals.specs.Same.{same};

pub mod conditions; // coefficients below q, and equal strings

// What a call refuses.
#[derive(Clone, Copy, Debug, PartialEq, Eq)]
pub enum Refusal {
    WrongLength = 1,
    PublicKeyRange = 2,
    WrongHash = 3,
    MaskRange = 5,
    ShareRange = 6,
    ShortStream = 7,
    NoSuchStep = 8,
    NoSuchRank = 9,
    LimitRange = 10,
    LimitReached = 11,
}

// What is carried out, or refused. What a refused call leaves, its contract says.
pub type Answer = Result<(), Refusal>;

// 0 where the call is carried out.
pub fn number(answer: Answer) -> u64
    ensures value { result ≡ number_of answer }
    ensures upper_bound { result ≤ 11 }
{
    match answer {
        Ok(()) => 0,
        Err(refusal) => refusal as u64,
    }
}

// Row 1: the lengths that the lent buffers have are those that they must have. By the definition, where `==` would say
// it in other words.
pub fn exact(has: &[usize], wants: &[usize]) -> bool
    requires { length has.now ≡ length wants.now }
    ensures { result ≡ same has.now wants.now }
{
    has == wants
}
