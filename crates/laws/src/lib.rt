// Definitions and lemmas that several crates share. It has no code of its own: see specs/ and proofs/.
#![tactic(auto)]
