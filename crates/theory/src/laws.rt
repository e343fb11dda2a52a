//! The laws of the rules: soundness, one answer to each step, and one verdict on each proof.
//!
//! The functions do nothing: their contracts are the theorems. By `answers_exist` and
//! `verdicts_exist` each proof has a report. So where memory or the writer fails, what was written
//! begins the report of the whole proof, with the steps that were not reached.

ghost use Rattle.theory.specs.Laws.{ForcedIsTrue, RupIsImplied, RatKeepsModels, PrKeepsModels};
ghost use Rattle.theory.specs.Laws.{ChainShowsClash, LratShowsRedundant, KeepsModels};
ghost use Rattle.theory.specs.Laws.{IsSoundVerdict, AnswersAreUnique, AnswersExist};
ghost use Rattle.theory.specs.Laws.{VerdictsAreUnique, VerdictsExist, UnitsAreKept};
ghost use Rattle.theory.specs.Laws.{ReasonsAreKept, LostWithReason};
ghost use Rattle.theory.specs.Laws.{OnlyCopiesCount, OnlySetsCount, EqualSetsEqualTotals};
ghost use Rattle.theory.specs.Laws.{EqualCopiesEqualSums};
ghost use Rattle.theory.specs.Laws.{NamesDontMatter, VerdictsKeepUnderNames};

/// Every literal that is forced is true in each model that makes the assumed literals true.
#[tactic(auto, using(crate::proofs::LawLemmas::Truth::forced_true))]
pub fn forced_is_true()
    ensures { ForcedIsTrue }
{}

/// A clause with RUP is true in every model.
pub fn rup_is_implied()
    ensures { RupIsImplied }
{}

/// Adding a clause with RAT keeps satisfiability.
pub fn rat_keeps_models()
    ensures { RatKeepsModels }
{}

/// Adding a clause with PR keeps satisfiability.
pub fn pr_keeps_models()
    ensures { PrKeepsModels }
{}

/// A walk over hints that ends in a conflict shows a clash.
pub fn chain_shows_clash()
    ensures { ChainShowsClash }
{}

/// An accepted LRAT addition has RUP or RAT.
#[tactic(auto, using(crate::proofs::LratLemmas::Steps::lrat_redundant))]
pub fn lrat_shows_redundant()
    ensures { LratShowsRedundant }
{}

/// An accepted step keeps satisfiability.
#[tactic(auto, using(crate::proofs::LawLemmas::Rules::keeps))]
pub fn keeps_models()
    ensures { KeepsModels }
{}

/// A formula that a proof verifies has no model.
#[tactic(auto, using(crate::proofs::LawLemmas::Verdicts::verdict_sound))]
pub fn is_sound()
    ensures { IsSoundVerdict }
{}

/// Where the rules keep units, what follows with nothing assumed follows after every later accepted
/// step.
#[tactic(auto, using(crate::proofs::LawLemmas::Losses::units_are_kept))]
pub fn units_are_kept()
    ensures { UnitsAreKept }
{}

/// Where the rules keep units, no clause is deleted that is the reason of a root-level literal.
#[tactic(auto, using(crate::proofs::LawLemmas::Losses::reasons_are_kept))]
pub fn reasons_are_kept()
    ensures { ReasonsAreKept }
{}

/// A deletion that loses a root-level literal is of a clause that was the reason of one.
#[tactic(auto, using(crate::proofs::LawLemmas::Losses::lost_with_reason))]
pub fn lost_with_reason()
    ensures { LostWithReason }
{}

/// A step has at most one answer.
#[tactic(auto, using(crate::proofs::LawLemmas::Rules::answer_unique))]
pub fn answers_are_unique()
    ensures { AnswersAreUnique }
{}

/// Each step has an answer.
#[tactic(auto, using(crate::proofs::LawLemmas::Existence::some_answer))]
pub fn answers_exist()
    ensures { AnswersExist }
{}

/// A proof has at most one verdict.
#[tactic(auto, using(crate::proofs::LawLemmas::Verdicts::verdict_unique))]
pub fn verdicts_are_unique()
    ensures { VerdictsAreUnique }
{}

/// Each proof has a verdict.
#[tactic(auto, using(crate::proofs::LawLemmas::Verdicts::some_verdict))]
pub fn verdicts_exist()
    ensures { VerdictsExist }
{}

/// The live clauses of a DRAT proof count as a multiset of sets.
#[tactic(auto, using(crate::proofs::DratLemmas::Copies::copies_count))]
pub fn only_copies_count()
    ensures { OnlyCopiesCount }
{}

/// The live clauses of an LRAT proof count as sets.
#[tactic(auto, using(crate::proofs::LratLemmas::SameSets::sets_count))]
pub fn only_sets_count()
    ensures { OnlySetsCount }
{}

/// The sum of the sizes of the live clauses depends only on their sets.
#[tactic(auto, using(crate::proofs::LawLemmas::Sizes::total_same))]
pub fn equal_sets_equal_totals()
    ensures { EqualSetsEqualTotals }
{}

/// The sum of the sizes of the live clauses depends only on how many copies of each set there are.
#[tactic(auto, using(crate::proofs::LawLemmas::Sizes::sums_same))]
pub fn equal_copies_equal_sums()
    ensures { EqualCopiesEqualSums }
{}

/// A step has the same answer under other names.
#[tactic(auto, using(crate::proofs::RenamingLemmas::Verdicts::step_renames))]
pub fn names_do_not_matter()
    ensures { NamesDontMatter }
{}

/// A proof has the same verdict under other names.
pub fn verdicts_keep_under_names()
    ensures { VerdictsKeepUnderNames }
{}
