//! The laws of typing and evaluation.
ghost use Rattle.meaning.specs.Columns.{DeclaredColumnsArePlain};
ghost use Rattle.meaning.specs.Infallible.{InfallibleHasValue};
ghost use Rattle.meaning.specs.LawsOfEvaluating.{ValuesFit, BoundTreesAreWellFormed, PlacesNameTheFault};
ghost use Rattle.meaning.specs.LawsOfEvaluating.{RowsAreRoots, ItemsAreOfRoots, RowsFit, ItemsFit};
ghost use Rattle.meaning.specs.LawsOfEvaluating.{FittingRowsMatchColumns, ItemsReadTheirPlace};
ghost use Rattle.meaning.specs.LawsOfHosts.{HostTextsAreArguments, HostFaultsHaveTheirNumber};

/// A value fits the type of its expression.
#[tactic(auto, using(crate::proofs::ValuesFit::values_fit))]
pub fn values_fit()
    ensures { ValuesFit }
{}

/// An expression that binds never faults as malformed.
#[tactic(auto, using(crate::proofs::WellFormed::bound_trees_are_well_formed))]
pub fn bound_trees_are_well_formed()
    ensures { BoundTreesAreWellFormed }
{}

/// An expression without fallible nodes has a value.
#[tactic(auto, using(crate::proofs::InfallibleHasValue::infallible_has_value))]
pub fn infallible_has_value()
    ensures { InfallibleHasValue }
{}

/// The path that comes with a fault leads to the node that faults.
pub fn places_name_the_fault()
    ensures { PlacesNameTheFault }
{}

/// A whole row is the value of a Root alone, and each GetItem is one of a Root.
#[tactic(auto, using(crate::proofs::RowsAtRoots::rows_are_roots, crate::proofs::RowsAtRoots::items_are_of_roots))]
pub fn rows_stand_at_roots()
    ensures rows { RowsAreRoots }
    ensures items { ItemsAreOfRoots }
{}

/// A row fits if it has one value per column, each fitting its own; it makes a fitting environment.
#[tactic(auto, using(crate::proofs::FittingRows::fitting_rows_match_columns, crate::proofs::RowEnvironments::rows_fit))]
pub fn rows_fit()
    ensures columns { FittingRowsMatchColumns }
    ensures environment { RowsFit }
{}

/// A GetItem has a fitting value, the one at its column's place in the row.
#[tactic(auto, using(crate::proofs::RowEnvironments::items_fit, crate::proofs::RowEnvironments::items_read_their_place))]
pub fn items_read_the_row()
    ensures fit { ItemsFit }
    ensures place { ItemsReadTheirPlace }
{}

/// Schemas declared column by column have plain columns, as these laws ask.
#[tactic(auto, using(crate::proofs::DeclaredColumns::declared_columns_are_plain))]
pub fn declared_columns_are_plain()
    ensures { DeclaredColumnsArePlain }
{}

/// A text that a host gives is that of an argument.
#[tactic(auto, using(crate::proofs::HostReplies::host_texts_are_arguments))]
pub fn host_texts_are_arguments()
    ensures { HostTextsAreArguments }
{}

/// A call that binds faults as the host's alone.
#[tactic(auto, using(crate::proofs::HostReplies::host_faults_have_their_number))]
pub fn host_faults_have_their_number()
    ensures { HostFaultsHaveTheirNumber }
{}
