// Laws and theorems of groups of sectors and of merged tables: they stand in proofs/, and there is no code here.
#![tactic(auto)]
