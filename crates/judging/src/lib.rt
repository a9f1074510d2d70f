// Received QUIC DATAGRAM payloads judged (RFC 9297, section 2.1).
#![tactic(auto)]

pub mod judge;
