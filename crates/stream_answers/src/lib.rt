// What calls on a stream table answer, as structs of numbers.
#![tactic(auto)]

pub mod frames;
pub mod table;
