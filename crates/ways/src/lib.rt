// How a right can come to be held, as functions on states. All of it is in specs/; there is no code.

#![tactic(auto)]
