// Choices and guards in one table, reduced and read back; and choices with no guards, by the nine kinds. Definitions and theorems, in specs/ and proofs/. No code.
#![tactic(auto)]
