// The laws of document 02 [6]: what passes, what the planner answers, and what an order is for.
#![tactic(auto)]
