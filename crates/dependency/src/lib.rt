// The positive dependency graph of a program, as definitions and theorems: which atom leads to which, and whether one leads back to itself.
#![tactic(auto)]
