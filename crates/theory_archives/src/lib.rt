// Laws and theorems of written table files: they stand in proofs/, and there is no code here.
#![tactic(auto)]
