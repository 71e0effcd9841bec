// Why a record doesn't hold.

#[derive(Clone, Copy, Debug, PartialEq, Eq)]
pub enum Failure {
    NoSuchKind, // there is no record of its kind, or no element of its width
    Outside, // what it would change, or copy, isn't in the memory
    Differs, // what it wants isn't so
    Cut, // the case ends before it does
}

// What comes of a record.
pub type Outcome = Result<(), Failure>;

pub fn wanted(holds: bool) -> Outcome {
    if holds { Ok(()) } else { Err(Failure::Differs) }
}
