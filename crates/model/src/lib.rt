//! The arena as a value: stores, the trees that their nodes stand for, making and rebuilding, and their laws.
#![tactic(auto)]

pub mod laws;
