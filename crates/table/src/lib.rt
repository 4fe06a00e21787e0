// The table of a circuit and the step machine, as definitions and theorems. It has no code of its own: see specs/ and proofs/.
#![tactic(auto)]
