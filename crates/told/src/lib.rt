// What the answer to a safety question says of the definitions. All of it is in specs/; there is no code.

#![tactic(auto)]
