// Demand 3 at the board's calls: all of it stands in specs/ and proofs/.
#![tactic(auto)]
