//! The text that the program reads: lines, words, numbers, the names of types.
#![tactic(auto)]

pub mod line;
pub mod lines;
mod naturals;
mod type_names;
mod words;
