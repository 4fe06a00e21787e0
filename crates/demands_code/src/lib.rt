// Demand 3 about the code: what start and advance do with the table of an accepted text. It has no code of its own: see proofs/.
#![tactic(auto)]
