// HTTP Datagrams: received QUIC DATAGRAM payloads judged (RFC 9297, section 2.1), capsules and frames written.
#![tactic(auto)]

pub mod judge;
pub mod write;
