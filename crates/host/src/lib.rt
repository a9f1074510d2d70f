// What hosts keep: readers that are changed where they lie.
#![tactic(auto)]

pub mod reader;
