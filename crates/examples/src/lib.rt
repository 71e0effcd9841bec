// Document 01's worked examples, in specs/. There is no code here.
#![tactic(auto)]
