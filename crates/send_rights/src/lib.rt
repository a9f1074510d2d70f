// Who may send to a stream.
#![tactic(auto)]

pub mod rights;
