// The parts of the list that "leaks" writes. All of it is in specs/; there is no code.

#![tactic(auto)]
