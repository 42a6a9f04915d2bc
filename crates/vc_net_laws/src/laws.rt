//! Laws of settling one atom at a time, each the contract of a function that does nothing.

ghost use Rattle.vc_net_laws.specs.Forced.{BaseIsForced, LogsAreForced, GivenIsForced, SoundSetsGrow};
ghost use Rattle.vc_net_laws.specs.Forced.{UnclearBreaks, ClashBreaks, QuietSettles};
ghost use Rattle.vc_net_laws.specs.Triggers.{TriggersAreNeeded};
ghost use Rattle.vc_net_laws.specs.Waking.{UntouchedGivesTheSame, UnchangedGivesTheSame, WokenIsEnough};
ghost use Rattle.vc_net_laws.specs.Waking.{GiversWakeThemselves};
ghost use Rattle.vc_net_laws.specs.Wakings.{AtomsPayForTurns, WokenAreFew, WorkIsEnough};
ghost use Rattle.vc_net_laws.specs.Working.{AgendasMayGrow, AtomsCome, QuietMayLeave, WorkBegins, WorkEnds, WorkIsKept};

/// What must stand: that the root is here, what an accepted log concludes, and what is given where all must stand.
pub fn given_is_forced()
    ensures base { BaseIsForced }
    ensures logs { LogsAreForced }
    ensures given { GivenIsForced }
{}

/// A sound set with one forced atom more is sound, or not clear, and then settling is broken.
pub fn sound_sets_grow()
    ensures sound { SoundSetsGrow }
    ensures breaks { UnclearBreaks }
{}

/// Settling ends with the atoms of a sound set at which nobody has anything to say, and is broken where somebody
/// clashes at one.
pub fn sound_sets_end()
    ensures settles { QuietSettles }
    ensures breaks { ClashBreaks }
{}

/// A rule whose trigger doesn't stand gives nothing.
pub fn triggers_are_needed()
    ensures { TriggersAreNeeded }
{}

/// Who touches nothing that came, went or changed gives what it gave.
pub fn untouched_givers_stay()
    ensures added { UntouchedGivesTheSame }
    ensures changed { UnchangedGivesTheSame }
{}

/// When an atom comes only those that are woken have to be asked; who gave it is one of them.
pub fn waking_is_enough()
    ensures others { WokenIsEnough }
    ensures itself { GiversWakeThemselves }
{}

/// Work with an agenda begins with any accepted log and all givers, goes on with each forced atom that leaves the set
/// clear, and with what is kept when sources change: whoever may have other things to say then is asked or quiet.
pub fn work_goes_on()
    ensures begins { WorkBegins }
    ensures comes { AtomsCome }
    ensures kept { WorkIsKept }
{}

/// Who is quiet may leave the agenda, anybody may come on it, and where nobody is left on it settling ends with just
/// the atoms that stand.
pub fn work_ends()
    ensures leave { QuietMayLeave }
    ensures grow { AgendasMayGrow }
    ensures ends { WorkEnds }
{}

/// Each atom pays for those that it wakes, so only so many turns are left; and the rules that are asked are within the
/// work on the things of the atoms that come.
pub fn turns_are_few()
    ensures woken { WokenAreFew }
    ensures turns { AtomsPayForTurns }
    ensures rules { WorkIsEnough }
{}
