// How large the numbers of a plan and of an answer are, by any method: no code, only specs/.
#![tactic(auto)]
