//! Laws of what a comparison and an equation say, each the contract of a function that does nothing.

ghost use Rattle.vc_rule_sides.specs.Laws.{CompareIsSaid, CompareStands, CompareIsRead, CompareFollows};
ghost use Rattle.vc_rule_sides.specs.Laws.{EquateIsSaid, EquateStands, EquateIsRead, EquateFollows};

/// What a comparison says, without what it follows from, is what it gives and doesn't stand yet.
pub fn compare_is_said()
    ensures { CompareIsSaid }
{}

/// What an equation says, without what it follows from, is what it gives and doesn't stand yet.
pub fn equate_is_said()
    ensures { EquateIsSaid }
{}

/// Each premise of what a comparison says stands.
pub fn compare_stands()
    ensures { CompareStands }
{}

/// Each premise of what an equation says stands.
pub fn equate_stands()
    ensures { EquateStands }
{}

/// Each premise of what a comparison says is of a variable that a side reads.
pub fn compare_is_read()
    ensures { CompareIsRead }
{}

/// Each premise of what an equation says is of a variable that a side reads.
pub fn equate_is_read()
    ensures { EquateIsRead }
{}

/// Wherever a part of what is seen says the premises of what a comparison says, the comparison
/// gives it too, if no grain that holds its variable's value is out.
pub fn compare_follows()
    ensures { CompareFollows }
{}

/// Wherever a part of what is seen says the premises of what an equation says, the equation gives
/// it too.
pub fn equate_follows()
    ensures { EquateFollows }
{}
