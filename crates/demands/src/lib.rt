// The three demands as theorems about the definitions: no code, only specs/.
#![tactic(auto)]
