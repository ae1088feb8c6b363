// Laws of tests and bounded searches. All of it is in specs/; there is no code.

#![tactic(auto)]
