//! Laws of the definitions, each the contract of a function that does nothing.

ghost use Rattle.vc_plan.specs.Laws.{PartsAreClear, ClearSetsAreSmall, ClashesStay, GivesMonotonely, RoundsSuffice};
ghost use Rattle.vc_plan.specs.Laws.{SettlesLeast, SettlesBelowClosed};

/// A part of a clear set of atoms is clear.
pub fn clear_parts()
    ensures { PartsAreClear }
{}

/// A clear set in which no atom stands twice has at most `atom_count` atoms.
pub fn clear_sizes()
    ensures { ClearSetsAreSmall }
{}

/// A rule or source that clashes at a set of atoms clashes at each clear larger one.
pub fn clashes_stay()
    ensures { ClashesStay }
{}

/// What a rule of any kind or a source gives at a set of atoms stands in each clear larger one, or is given there, or
/// the rule or source clashes there: so it doesn't matter in which order they are applied.
pub fn giving_is_monotone()
    ensures { GivesMonotonely }
{}

/// After `atom_count` rounds nothing is to be added: what is settled is closed.
pub fn rounds_suffice()
    ensures { RoundsSuffice }
{}

/// What is settled stands in every closed set: settling adds nothing that needn't be.
pub fn settling_is_least()
    ensures { SettlesLeast }
{}

/// Where there is a closed set, settling isn't broken.
pub fn closed_sets_settle()
    ensures { SettlesBelowClosed }
{}
