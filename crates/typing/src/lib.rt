//! Nodes that are asked for, and which type they have: against schemas and a host, or none.
#![tactic(auto)]

pub mod asking;
pub mod binder;
pub mod counting;
pub mod operands;
pub mod placing;
pub mod typist;
pub mod untyped;
