// The three demands about the public calls, and the sheet of the thirteen commands: theorems alone. What each says is in specs/, its proof in proofs/.

#![tactic(auto)]
