// What every command keeps: a valid state stays valid. All of it is in specs/ and proofs/; there is no code.

#![tactic(auto)]
