// What holds of the rules: theorems alone, in specs/ and proofs/. No code.
#![tactic(auto)]
