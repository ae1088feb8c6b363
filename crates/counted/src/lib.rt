// What is asked of the window of late refusals, as theorems. All of it is in specs/ and proofs/; there is no code.

#![tactic(auto)]
