//! Laws of premises, each the contract of a function that does nothing.

ghost use Rattle.vc_rule_premises.specs.Laws.{DecidingSuffices, DecidingIsRead, ActingSuffices};
ghost use Rattle.vc_rule_premises.specs.Laws.{AllIsCited, NothingElseIsCited, EachIsCitedOnce, FewAreCited};
ghost use Rattle.vc_rule_premises.specs.Laws.{FreshIsSaid, RoomSuffices, PremisesAreAPart};

/// What makes a condition true, or false, does so alone.
pub fn deciding_suffices()
    ensures { DecidingSuffices }
{}

/// What makes a condition true, or false, is among what it reads.
pub fn deciding_is_read()
    ensures { DecidingIsRead }
{}

/// Why a rule acts is enough for it to act.
pub fn acting_suffices()
    ensures { ActingSuffices }
{}

/// What is cited of a list: all of it but that the root is here, nothing else, each once, and so no
/// more than any list has that holds it.
pub fn cited_once()
    ensures all { AllIsCited }
    ensures alone { NothingElseIsCited }
    ensures once { EachIsCitedOnce }
    ensures few { FewAreCited }
{}

/// A yield with room for what a rule says holds it, each with why the rule acts cited first.
pub fn room_suffices()
    ensures { RoomSuffices }
{}

/// What is said of what a rule gives is that, without what stands already.
pub fn fresh_is_said()
    ensures { FreshIsSaid }
{}

/// What premises that stand say is a part of what is seen, and all of them.
pub fn premises_are_a_part()
    ensures { PremisesAreAPart }
{}
