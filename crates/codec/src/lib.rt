// Laws of the bytes of a record. All of it is in specs/ and proofs/; there is no code.

#![tactic(auto)]
