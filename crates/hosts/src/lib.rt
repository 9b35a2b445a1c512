//! Two hosts: functions on numbers and functions on texts.
#![tactic(auto)]

pub mod calls;
pub mod labels;
pub mod numbers;
