// Laws and theorems of rounds: they stand in proofs/, and there is no code here.
#![tactic(auto)]
