// What a design does, as definitions and theorems. It has no code of its own: see specs/ and proofs/.
#![tactic(auto)]
