// What HTTP versions, messages and settings say about datagrams and capsules (RFC 9297).
#![tactic(auto)]

pub mod errors;
pub mod messages;
pub mod settings;
