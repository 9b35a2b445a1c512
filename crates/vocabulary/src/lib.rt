//! The words that every layer of the frame-filter library shares: types and values, operators, the
//! orders of a walk, refusals, the record of a node.
#![tactic(auto)]

pub mod few_bytes;
pub mod laws;
pub mod nodes;
pub mod operators;
pub mod refusals;
pub mod traversal;
pub mod types;
pub mod values;
