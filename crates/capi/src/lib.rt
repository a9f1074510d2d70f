// What a host calls from C: the functions that include/maruzhenu.h declares.
#![tactic(auto)]

mod address_capsules;
mod frames;
mod identifiers;
mod messages;
mod one_shot;
mod reader;
mod sight;
mod table;
mod varint;
