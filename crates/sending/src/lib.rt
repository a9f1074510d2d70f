// DATAGRAM capsules and QUIC DATAGRAM frames written.
#![tactic(auto)]

pub mod write;
