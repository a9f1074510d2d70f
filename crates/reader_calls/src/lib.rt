// Opening and feeding a reader that is kept in words.
#![tactic(auto)]

pub mod reader;
mod short;
