// A reader kept in eight words.
#![tactic(auto)]

pub mod numbers;
pub mod words;
