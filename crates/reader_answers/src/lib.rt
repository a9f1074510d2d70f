// What calls on a reader answer, as structs of numbers.
#![tactic(auto)]

pub mod reader;
pub mod sight;
