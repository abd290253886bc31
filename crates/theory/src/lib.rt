// Laws that several families rest on: they stand in proofs/, and there is no code here.
#![tactic(auto)]
