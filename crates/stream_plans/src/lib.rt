// What a call on a stream table decides from what was found.
#![tactic(auto)]

pub mod plan;
