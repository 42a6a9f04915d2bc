//! Laws of readers, each the contract of a function that does nothing.

ghost use Rattle.vc_net_readers.specs.Laws.{AskedTouch, GlancesAreKept, TriggersAreKept, WokenAreAsked};

/// Each rule that an atom wakes is asked, and each that is asked touches the atom's thing.
pub fn woken_are_asked()
    ensures all { WokenAreAsked }
    ensures touch { AskedTouch }
{}

/// The trigger that readers tell of a rule is the one by which the rule wakes.
pub fn triggers_are_kept()
    ensures { TriggersAreKept }
{}

/// What readers tell of a rule at a glance is what the rule is.
pub fn glances_are_kept()
    ensures { GlancesAreKept }
{}
