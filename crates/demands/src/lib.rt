// From bytes to dump: document 01's worked cases as one table, and its demands over the definitions. It has no code of its own.
#![tactic(auto)]
