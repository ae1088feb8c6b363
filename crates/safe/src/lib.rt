// The safe half of the safety theorem: when no list of commands gives the right. All of it is in specs/ and proofs/; there is no code.

#![tactic(auto)]
