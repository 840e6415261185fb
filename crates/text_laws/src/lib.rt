// The laws of the registry's text: its order, its parts, what it tells apart, how long it is. Theorems alone, in specs/. No code.
#![tactic(auto)]
