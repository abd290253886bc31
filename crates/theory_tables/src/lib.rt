// Laws and theorems of tables and their sheets: they stand in proofs/, and there is no code here.
#![tactic(auto)]
