// Masked decapsulation behind row 1, of either edition: rows 5 to 8, and the whole worksheet, told a step number or
// none.
#![tactic(auto)]

mod input; // what is lent to be read
mod ranges; // rows 5 to 7
mod told; // the rows, then the worksheet
mod worksheet_run; // the whole worksheet

pub use input::Input;
pub use told::decapsulate;
