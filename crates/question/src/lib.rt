// The safety question. The definitions are in specs/; the crate has no code.

#![tactic(auto)]
