// Laws and theorems of what a scheme adds: they stand in proofs/, and there is no code here.
#![tactic(auto)]
