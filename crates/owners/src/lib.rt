// Theorems about owners, the owner walk and validity. All of it is in specs/ and proofs/; there is no code.

#![tactic(auto)]
