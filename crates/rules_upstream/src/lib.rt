// Upstream's clauses follow from the rules: theorems alone, in specs/ and proofs/. No code.
#![tactic(auto)]
