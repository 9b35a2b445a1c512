//! The laws of children that are given as a slice.
// Each has an answer: by its lemmas alone the check does not close it.
ghost use Rattle.arena.specs.LawsOfCalls.{CallsMake, CallsRebuild, CallsMakeUnbound, CallsRebuildUnbound};
ghost use Rattle.arena.specs.LawsOfChildren.{TheFirstDecide, EightStandForAny};

/// Making and rebuilding do as they are asked over all of the children, however many there are; the store stays sound,
/// and older nodes stay. Of bound nodes they refuse just for their causes, and of unbound ones a refusal changes nothing.
pub fn calls_do_as_asked()
    ensures made { CallsMake }
    ensures rebuilt { CallsRebuild }
    ensures made_unbound { CallsMakeUnbound }
    ensures rebuilt_unbound { CallsRebuildUnbound }
{}

/// Making and rebuilding look at the first so many children alone, and eight numbers stand for any slice: the model's
/// laws hold of both.
pub fn children_are_as_eight()
    ensures first { TheFirstDecide }
    ensures eight { EightStandForAny }
{}
