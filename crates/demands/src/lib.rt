// The three demands, as theorems about the words that the functions promise to leave. Theorems alone, in specs/ and proofs/. No code.
#![tactic(auto)]
