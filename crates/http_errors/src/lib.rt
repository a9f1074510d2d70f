// Which error an answer is, and what an error becomes on each HTTP version.
#![tactic(auto)]

pub mod ties;
pub mod translation;
