// Stream records, and what the calls over a table of them answer.
#![tactic(auto)]

pub mod answers;
pub mod record;
