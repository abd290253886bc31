// Laws and theorems of the budget that always suffices: they stand in proofs/, and there is no code here.
#![tactic(auto)]
