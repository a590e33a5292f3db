// Laws for walks by hand over what is lent: see proofs/. There is no code here.
#![tactic(auto)]
