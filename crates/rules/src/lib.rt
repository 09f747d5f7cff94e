// Document 01 as definitions: no code, only specs/.
#![tactic(auto)]
