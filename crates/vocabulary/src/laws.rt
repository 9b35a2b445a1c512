ghost use Rattle.vocabulary.specs.Layers.{NumbersTellLayers};
ghost use Rattle.vocabulary.specs.Orders.{InvertingNegates, SwappingExchangesSides};
ghost use Rattle.vocabulary.specs.Types.{AlikeIsOneKind};

/// Types are alike just where their kinds are equal.
#[tactic(auto, using(crate::proofs::Alike::alike_is_one_kind))]
pub fn alike_is_one_kind()
    ensures { AlikeIsOneKind }
{}

/// A refusal's number tells its layer, and there are refusals of all numbers from 1 to 18.
#[tactic(auto, using(crate::proofs::Numbers::numbers_tell_layers))]
pub fn numbers_tell_layers()
    ensures { NumbersTellLayers }
{}

/// A swapped comparison holds of the operands exchanged, and what is swapped swaps back.
pub fn swapping_exchanges_sides()
    ensures { SwappingExchangesSides }
{}

/// An inverse holds just where its comparison does not, and what is inverted inverts back.
pub fn inverting_negates()
    ensures { InvertingNegates }
{}
