// Names in fields of 32 bytes, their order, the tables that hold them, and the marker words.
#![tactic(auto)]

pub mod fields;
pub mod markers;
pub mod tables;
