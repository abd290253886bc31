// Laws and theorems of printed pages: they stand in proofs/, and there is no code here.
#![tactic(auto)]
