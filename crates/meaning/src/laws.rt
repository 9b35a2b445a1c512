//! The laws, by topic.
// A law names its lemma on its function, where the check closes it with that alone; the others have an answer.
pub mod evaluation;
pub mod rewriting;
pub mod values;
