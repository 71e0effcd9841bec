// What decapsulation does around K-PKE, on two shares: stages 3, 8 and 9 of masked decapsulation (document 01, The
// worksheet), and Kyber's last hash. Each function is handed the strips from its first mask on.
#![tactic(auto)]

pub mod comparison; // stage 8
pub mod hashing; // stages 3 and 9, and Kyber's last hash
