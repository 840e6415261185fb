// What the console says is what the rules answer: theorems alone, in specs/ and proofs/. No code.
#![tactic(auto)]
