// Answers as structs of numbers, and how other numbers are read.
#![tactic(auto)]

pub mod address_capsules;
pub mod identifiers;
pub mod messages;
pub mod numbers;
pub mod one_shot;
pub mod varint;
