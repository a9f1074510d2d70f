// Worked cases about the definitions of the other crates: see specs/.
#![tactic(auto)]
