// The value of the Capsule-Protocol header field (RFC 9297, section 3.4), read by the rules of RFC 8941.
#![tactic(auto)]

mod bytes;
pub mod field;
mod stages;
