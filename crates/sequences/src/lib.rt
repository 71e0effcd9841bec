// Sequences of calls on one split key, in specs/. There is no code here.
#![tactic(auto)]
