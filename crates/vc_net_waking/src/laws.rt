//! Laws of who is asked, each the contract of a function that does nothing.

ghost use Rattle.vc_net_waking.specs.Laws.{BeginnersSuffice, OthersWaitOn, SizesStay, WakingIsFew, WokenWait};
ghost use Rattle.vc_net_waking.specs.Spending.{BeginnersAreOn, ConclusionsAreOfThings, EachTouchesSomething};
ghost use Rattle.vc_net_waking.specs.Spending.{ReachHoldsWhatIsWritten, RulesAreWithinWork, RulesWokenAreFew};
ghost use Rattle.vc_net_waking.specs.Spending.{WokenAreOn};

/// Whoever comes on an agenda, those who waited wait on, and it is of as many rules and variables.
pub fn others_wait_on()
    ensures others { OthersWaitOn }
    ensures sizes { SizesStay }
{}

/// All who are woken when an atom has come wait then or are quiet; and no more come on the agenda than touch the atom's
/// thing.
pub fn woken_wait()
    ensures all { WokenWait }
    ensures few { WakingIsFew }
{}

/// The work may begin with that the root is here and those on the agenda who may have anything to say there.
pub fn beginners_suffice()
    ensures { BeginnersSuffice }
{}

/// What things reach in a valid plan has all that is written by who touches one of it; and who touches one of such
/// things concludes atoms of them.
pub fn reach_holds_what_is_written()
    ensures reach { ReachHoldsWhatIsWritten }
    ensures conclusions { ConclusionsAreOfThings }
{}

/// Whom an atom of some things wakes touches one of them; and no more rules come on the agenda than touch the atom's.
pub fn woken_are_on()
    ensures on { WokenAreOn }
    ensures few { RulesWokenAreFew }
{}

/// The rules that wait, and as often as distinct atoms of the things wake one, are within the work on the things.
pub fn rules_are_within_work()
    ensures { RulesAreWithinWork }
{}

/// Whoever is in a valid plan touches some thing of it; so those who wait at the start touch what all things reach.
pub fn beginners_are_on()
    ensures each { EachTouchesSomething }
    ensures all { BeginnersAreOn }
{}
