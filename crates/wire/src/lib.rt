// Numbers on the wire: variable-length integers, stream IDs and quarter stream IDs.
#![tactic(auto)]

pub mod partial;
pub mod units;
pub mod varint;
