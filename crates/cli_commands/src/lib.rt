// The commands of the program mlkem: their names and forms, and those that need no split key.
#![tactic(auto)]

pub mod commands; // the commands, their forms and the number of their arguments
pub mod hashes; // sha3-256, sha3-512, shake128, shake256
pub mod keys; // keygen, encaps
pub mod stream_sampling; // sample
