// The stream table: which request streams are open, and which of them have semantics for datagrams.
#![tactic(auto)]

pub mod table;
