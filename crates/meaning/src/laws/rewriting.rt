//! The laws of the rules, of optimizing and of fusing.
ghost use Rattle.meaning.specs.LawsOfFusing.{FusingKeeps, FusingCompletes, MergingTakesTheFirstPair};
ghost use Rattle.meaning.specs.LawsOfOptimizing.{OptimizedIsNormal, DepthSuffices, RefusedOnlyForA101stRound};
ghost use Rattle.meaning.specs.LawsOfRules.{SimplifyKeeps, ReduceKeeps, RoundKeeps, OptimizingKeeps};
ghost use Rattle.meaning.specs.LawsOfSizes.{NothingGrows};
ghost use Rattle.meaning.specs.WorkedCases.{WorkedCases};

/// A rule's answer has the type of what it was asked of, and its value where it has one; so has a round's.
pub fn rules_keep()
    ensures simplify { SimplifyKeeps }
    ensures reduce { ReduceKeeps }
    ensures round { RoundKeeps }
{}

/// Optimizing keeps the type, and the value where there is one.
pub fn optimizing_keeps()
    ensures { OptimizingKeeps }
{}

/// No rule fires in an optimized expression, and optimizing it again changes nothing.
pub fn optimized_is_normal()
    ensures { OptimizedIsNormal }
{}

/// Optimizing needs no more levels than the tree has.
#[tactic(auto, using(crate::proofs::DepthSuffices::depth_suffices))]
pub fn depth_suffices()
    ensures { DepthSuffices }
{}

/// Optimizing is refused only where a 101st round would change a node.
#[tactic(auto, using(crate::proofs::RefusedRounds::refused_only_for_a_101st_round))]
pub fn refused_only_for_a_101st_round()
    ensures { RefusedOnlyForA101stRound }
{}

/// Fusing keeps the type, and the value wherever either tree has one.
pub fn fusing_keeps()
    ensures { FusingKeeps }
{}

/// Fusing leaves no pair of range comparisons, and fusing again changes nothing.
pub fn fusing_completes()
    ensures { FusingCompletes }
{}

/// A merge takes the first pair, and its Between takes the left one's place.
#[tactic(auto, using(crate::proofs::FirstPair::merging_takes_the_first_pair))]
pub fn merging_takes_the_first_pair()
    ensures { MergingTakesTheFirstPair }
{}

/// Neither optimizing nor fusing makes a tree larger or deeper.
pub fn nothing_grows()
    ensures { NothingGrows }
{}

/// The worked cases come out as stated.
pub fn worked_cases()
    ensures { WorkedCases }
{}
