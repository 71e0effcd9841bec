// What the worksheet's values join to, in specs/. There is no code here.
#![tactic(auto)]
