// The paper's worked rows as theorems. All of it is in specs/; there is no code.

#![tactic(auto)]
