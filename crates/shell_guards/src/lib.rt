// Rules that are led past the reducer, and the guards that stand for them in the table. Definitions and theorems, in specs/ and proofs/. No code.
#![tactic(auto)]
