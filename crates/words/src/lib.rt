// Laws of words, lists, loops, tables and residues, in specs/. There is no code here.
#![tactic(auto)]
