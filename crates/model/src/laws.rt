//! The laws of making, rebuilding and binding, and of unbound trees.
// A law names its lemma on its function, where the check closes it with that alone; the others have an answer.
ghost use Rattle.model.specs.LawsOfMaking.{EmptyIsSound, StepsKeepSound, StepsOnlyAdd, NodesStay};
ghost use Rattle.model.specs.LawsOfMaking.{TreesByShapes, RecordsLieForward, RefusalsChangeNothing};
ghost use Rattle.model.specs.LawsOfMaking.{MadeAsAsked, RebuiltOverOthers};
ghost use Rattle.model.specs.LawsOfRefusing.{MakingRefusesExactly, RebuildingRefusesExactly};
ghost use Rattle.model.specs.LawsOfBinding.{BoundAsAsked, BindingKeepsTheStore, OneNodeForEachPlace};
ghost use Rattle.model.specs.LawsOfRefusedBinding.{RefusedBindingsChangeNothing, BindingRefusesForCauses};
ghost use Rattle.model.specs.LawsOfBinding.{BindingMakesAsMaking};
ghost use Rattle.model.specs.LawsOfRefusedBinding.{TypesRefuseNoTreeThatBinds};
ghost use Rattle.model.specs.LawsOfUnbound.{EmptyUnboundIsSound, UnboundStepsKeepSound, UnboundNodesStay};
ghost use Rattle.model.specs.LawsOfUnbound.{UnboundRefusalsChangeNothing, UnboundMadeAsAsked};
ghost use Rattle.model.specs.LawsOfUnbound.{UnboundRebuiltOverOthers};

/// The arena as it is opened is sound, and making and rebuilding keep it so.
pub fn stores_stay_sound()
    ensures opened { EmptyIsSound }
    ensures kept { StepsKeepSound }
{}

/// What is made stays: steps only add, and change no older node's record, number or tree.
pub fn nodes_stay()
    ensures added { StepsOnlyAdd }
    ensures stay { NodesStay }
{}

/// A refusal leaves the store as it was.
#[tactic(auto, using(crate::proofs::Adding::refusals_change_nothing))]
pub fn refusals_change_nothing()
    ensures { RefusalsChangeNothing }
{}

/// What is made has the next number, and its tree is the function asked for over the children's trees.
#[tactic(auto, using(crate::proofs::Granting::made_as_asked))]
pub fn made_as_asked()
    ensures { MadeAsAsked }
{}

/// What is rebuilt is the old function over the other children's trees.
#[tactic(auto, using(crate::proofs::Regranting::rebuilt_over_others))]
pub fn rebuilt_over_others()
    ensures { RebuiltOverOthers }
{}

/// A node's tree is its function over the trees of its children.
pub fn trees_by_shapes()
    ensures { TreesByShapes }
{}

/// The record of a number lies at that place where the nodes lie oldest first.
#[tactic(auto, using(crate::proofs::Forward::records_lie_forward))]
pub fn records_lie_forward()
    ensures { RecordsLieForward }
{}

/// Making and rebuilding are refused exactly for the causes of the refusals, in the order of their numbers.
#[tactic(auto, using(crate::proofs::Causes::making_refuses_exactly, crate::proofs::Causes::rebuilding_refuses_exactly))]
pub fn refused_for_their_causes()
    ensures made { MakingRefusesExactly }
    ensures rebuilt { RebuildingRefusesExactly }
{}

/// A bound node's tree is the unbound tree against the schema, and its record has the type of that tree.
pub fn bound_as_asked()
    ensures bound { BoundAsAsked }
    ensures made { BindingMakesAsMaking }
{}

/// Binding keeps a store sound and only adds nodes; older nodes stay.
pub fn binding_keeps_the_store()
    ensures { BindingKeepsTheStore }
{}

/// Binding makes one node for each place of the tree, and answers the last of them.
#[tactic(auto, using(crate::proofs::BindingLaws::one_node_for_each_place))]
pub fn one_node_for_each_place()
    ensures { OneNodeForEachPlace }
{}

/// A refused binding leaves the store as it was, and has its cause at a node of the tree, which it names.
#[tactic(auto, using(crate::proofs::BindingTypes::binding_refuses))]
pub fn binding_refuses_for_causes()
    ensures leaves { RefusedBindingsChangeNothing }
    ensures causes { BindingRefusesForCauses }
    ensures types { TypesRefuseNoTreeThatBinds }
{}

/// An arena of unbound trees is sound as it is opened, and making and rebuilding keep it so; what is made stays.
pub fn unbound_nodes_stay()
    ensures opened { EmptyUnboundIsSound }
    ensures kept { UnboundStepsKeepSound }
    ensures stay { UnboundNodesStay }
    ensures leaves { UnboundRefusalsChangeNothing }
{}

/// What is made unbound is the function asked for over the children's trees, and what is rebuilt the old one.
pub fn unbound_made_as_asked()
    ensures made { UnboundMadeAsAsked }
    ensures rebuilt { UnboundRebuiltOverOthers }
{}
