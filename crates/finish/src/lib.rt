// The ends of leaking lists: once v owns o, or o is absent, or i has the right starred. All of it is in specs/ and proofs/; there is no code.

#![tactic(auto)]
