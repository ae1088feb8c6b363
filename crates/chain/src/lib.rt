// The way up from a name to the first untrusted subject, and the destruction of the subjects on it. All of it is in specs/ and proofs/; there is no code.

#![tactic(auto)]
