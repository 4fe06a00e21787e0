// Names and sizes: refusals 5 to 10, and the circuit of a design. It has no code of its own: see specs/ and proofs/.
#![tactic(auto)]
