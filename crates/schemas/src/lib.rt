//! Schemas: the columns of a frame's record, declared before an arena is opened.
#![tactic(auto)]

pub mod column;
pub mod declaring;
pub mod found;
pub mod laws;
pub mod reading;
pub mod schema;
pub mod schemas;
pub mod tables;
