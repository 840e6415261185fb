// The laws of document 02 [4]: the conditions on a text, what every run keeps, and what a load leaves.
#![tactic(auto)]
