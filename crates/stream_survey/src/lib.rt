// What one pass over a table of stream records finds.
#![tactic(auto)]

pub mod survey;
