// Demand 3 of document 01 over any desk: the claim, what a desk owes for it, and its proof, in specs/ and proofs/. There is no code here.
#![tactic(auto)]
