// The demonstration's calls on a split key, decapsulation and traces, and the lines that it prints.
#![tactic(auto)]

pub mod lines; // on standard output
pub mod uses; // decapsulation and traces
