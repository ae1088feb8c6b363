// The safety question decided, on states. All of it is in specs/; there is no code.

#![tactic(auto)]
