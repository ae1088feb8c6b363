// Commands that are accepted, and lists of them. All of it is in specs/; there is no code.

#![tactic(auto)]
