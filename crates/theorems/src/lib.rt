// The theorems of the whole: see proofs/Theorems.antt. There is no code here.
#![tactic(auto)]
