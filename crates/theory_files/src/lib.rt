// Laws and theorems of table files: they stand in proofs/, and there is no code here.
#![tactic(auto)]
