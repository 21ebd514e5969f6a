// What each public contract promises, that it determines, and the wrong programs that it stops (proofs/). There is no code here.
#![tactic(auto)]
