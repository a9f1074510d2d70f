// A stream of capsules (RFC 9297, section 3.2), read piece by piece.
#![tactic(auto)]

mod moves;
pub mod reader;
