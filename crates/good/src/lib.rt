// What a good request is, as laws of the definitions: no code, only specs/.
#![tactic(auto)]
