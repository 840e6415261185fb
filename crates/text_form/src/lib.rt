// Texts as forms: what is written and what is read by one description, with its two laws. Definitions in specs/, laws in specs/ and proofs/. No code.
#![tactic(auto)]
