// Laws and theorems of lists of sectors and of rearranged tables: they stand in proofs/, and there is no code here.
#![tactic(auto)]
