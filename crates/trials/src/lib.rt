//! Examples of what the library answers, run as tests.
#![tactic(auto)]

#[cfg(test)]
mod answers;
#[cfg(test)]
mod declaring;
#[cfg(test)]
mod printing;
#[cfg(test)]
mod reserving;
