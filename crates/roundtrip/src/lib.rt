// What is written is read back, and what is read is written back: theorems alone, in proofs/. There is nothing to call here.

#![tactic(auto)]
