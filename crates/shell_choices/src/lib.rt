// Choice rules: their stable models, and their translation into clauses. Definitions and theorems, in specs/ and proofs/. No code.
#![tactic(auto)]
