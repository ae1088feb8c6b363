// What commands leave as it was, and facts that tie answers to states. All of it is in specs/ and proofs/; there is no code.

#![tactic(auto)]
