// Demand 3, in specs/. There is no code here.
#![tactic(auto)]
