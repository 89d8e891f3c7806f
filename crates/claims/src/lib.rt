// The claims of document 01 as theorems over the definitions that the calls' contracts cite. They are in proofs/.
#![tactic(auto)]
