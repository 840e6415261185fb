// Tests and lists, as the rules and the forms of texts use them. Definitions alone, in specs/. No code.
#![tactic(auto)]
