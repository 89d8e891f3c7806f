// Stable models of ground disjunctive programs. This crate has no code: the definitions are in specs/, the theorems in proofs/.
#![tactic(auto)]
