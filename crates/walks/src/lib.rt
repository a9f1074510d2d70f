// Laws of walks by hand: how a function that takes references to structs is proved. See proofs/.
#![tactic(auto)]
