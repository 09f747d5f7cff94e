// Laws that the demands and the proofs of code both cite: folds, orders and tests; paths, cycles and ranks; what was read. No code, only specs/.
#![tactic(auto)]
