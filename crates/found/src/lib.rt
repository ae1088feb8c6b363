// What is asked of the call that finds the first command after which a right is held, as theorems. All of it is in specs/ and proofs/; there is no code.

#![tactic(auto)]
