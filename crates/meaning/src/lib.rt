//! What expression trees mean: values and three-valued logic, typing and evaluation, the rules and the
//! fusing of range comparisons. The definitions and the laws stand in specs/; each function of `laws` has a law
//! for its contract. `host` is the trait by which customers plug in functions of their own.
#![tactic(auto)]

pub mod answers;
pub mod calls;
pub mod host;
pub mod laws;
pub mod no_functions;
pub mod texts;
