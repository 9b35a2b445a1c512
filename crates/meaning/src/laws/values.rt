//! The laws of three-valued logic, of comparing and computing, and of the numbers of faults.
ghost use Rattle.meaning.specs.LawsOfComputing.{QuotientsDropTheFraction, ZeroDivisorsFault, ResultsAreExact};
ghost use Rattle.meaning.specs.LawsOfValues.{KleeneCommutes, KleeneAssociates, LutIsKleene, DecidingTruths};
ghost use Rattle.meaning.specs.LawsOfValues.{OrderByKind, SwappingExchangesOperands, FaultNumbersAgree};
ghost use Rattle.meaning.specs.Standard.{TruthTablesAgree, ComparisonsFromTwo, EqualValuesAreOne};
ghost use Rattle.meaning.specs.Standard.{NullComparesToNull, NullComputesToNull, BetweenIsTwoComparisons};

/// And and Or commute and associate.
#[tactic(auto, using(crate::proofs::KleeneLaws::kleene_commutes, crate::proofs::KleeneLaws::kleene_associates))]
pub fn kleene_logic()
    ensures commutes { KleeneCommutes }
    ensures associates { KleeneAssociates }
{}

/// And and Or are those of the truth tables of ISO SQL.
#[tactic(auto, using(crate::proofs::KleeneLaws::truth_tables_agree))]
pub fn truth_tables_agree()
    ensures { TruthTablesAgree }
{}

/// Of two known truths And and Or are two-valued, and one may decide by itself.
#[tactic(auto, using(crate::proofs::KleeneLaws::lut_is_kleene, crate::proofs::KleeneLaws::deciding_truths))]
pub fn known_truths()
    ensures both { LutIsKleene }
    ensures one { DecidingTruths }
{}

/// Numbers go by their size, texts by their bytes, and false is below true.
#[tactic(auto, using(crate::proofs::Comparisons::order_by_kind))]
pub fn order_by_kind()
    ensures { OrderByKind }
{}

/// A comparison and the swapped one of the operands exchanged say the same.
#[tactic(auto, using(crate::proofs::Comparisons::swapping_exchanges_operands))]
pub fn swapping_exchanges_operands()
    ensures { SwappingExchangesOperands }
{}

/// The other comparisons follow from = and <, as in ISO SQL.
#[tactic(auto, using(crate::proofs::Comparisons::comparisons_from_two))]
pub fn comparisons_from_two()
    ensures { ComparisonsFromTwo }
{}

/// A value other than null compares as equal with itself, and with no other.
#[tactic(auto, using(crate::proofs::Comparisons::equal_values_are_one))]
pub fn equal_values_are_one()
    ensures { EqualValuesAreOne }
{}

/// Comparing and computing with null gives null.
#[tactic(auto, using(crate::proofs::Comparisons::null_compares_to_null, crate::proofs::Comparisons::null_computes_to_null))]
pub fn nulls_give_null()
    ensures compared { NullComparesToNull }
    ensures computed { NullComputesToNull }
{}

/// Between is the And of its two comparisons.
#[tactic(auto, using(crate::proofs::BetweenComparisons::between_is_two_comparisons))]
pub fn between_is_two_comparisons()
    ensures { BetweenIsTwoComparisons }
{}

/// A fault has the number of the refusal that reports it.
#[tactic(auto, using(crate::proofs::Comparisons::fault_numbers_agree))]
pub fn fault_numbers_agree()
    ensures { FaultNumbersAgree }
{}

/// A quotient drops the fraction toward zero, a zero divisor faults, and other results are exact or fault.
#[tactic(auto, using(crate::proofs::Quotients::arithmetic_is_exact))]
pub fn arithmetic_is_exact()
    ensures quotients { QuotientsDropTheFraction }
    ensures zero { ZeroDivisorsFault }
    ensures others { ResultsAreExact }
{}
