ghost use Rattle.schemas.specs.AllSchemas.{FoundStaysFound};
ghost use Rattle.schemas.specs.Declarations.{NamesTellColumns};

/// A schema has at most 32 columns, and each is found under its own name.
#[tactic(auto, using(crate::proofs::Names::names_tell_columns))]
pub fn names_tell_columns()
    ensures { NamesTellColumns }
{}

/// What is found in a schema stays found when a column is added.
#[tactic(auto, using(crate::proofs::Names::found_stays_found))]
pub fn found_stays_found()
    ensures { FoundStaysFound }
{}
