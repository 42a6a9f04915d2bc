//! Laws of blame, each the contract of a function that does nothing.

ghost use Rattle.vc_plan_blame.specs.Laws.{BrokenIsBlamed, ClashingIsBlamed, CollidingIsBlamed, ExhaustedIsBlamed};
ghost use Rattle.vc_plan_blame.specs.Laws.{ExhaustedIsTouched, OutIsBlamed, StatusIsThere, UnclearIsBlamed};
ghost use Rattle.vc_plan_blame.specs.Laws.{ValuesAreBlamed};

/// A clash refutes the sources where what it cites can't stand together, each of it is needed for that, and some of it
/// has a culprit; and where a rule or source clashes at what it cites, of what that reads.
pub fn citing_clashes_refute()
    ensures collisions { CollidingIsBlamed }
    ensures clashes { ClashingIsBlamed }
{}

/// What can't stand together refutes the sources, whatever numbers cite it: a variable's slot with all its grains out;
/// where every variable has one left, a value with that its grain is out; and where no grain of either is, two values.
pub fn collisions_are_blamed()
    ensures exhausted { ExhaustedIsBlamed }
    ensures out { OutIsBlamed }
    ensures values { ValuesAreBlamed }
{}

/// A variable that one atom more leaves without a grain is one of which the atom takes a grain, or brings the slot.
pub fn exhausted_is_touched()
    ensures { ExhaustedIsTouched }
{}

/// Where one accepted step more makes what is concluded unclear, the clash that `blame` finds refutes the sources.
pub fn unclear_is_blamed()
    ensures { UnclearIsBlamed }
{}

/// Where settling with sources that fit a valid plan is broken, some clash refutes them.
pub fn broken_is_blamed()
    ensures { BrokenIsBlamed }
{}

/// Whatever a user set that fits a valid plan, it has a status.
pub fn statuses_are_there()
    ensures { StatusIsThere }
{}
