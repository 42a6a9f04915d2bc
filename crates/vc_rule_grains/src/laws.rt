//! Laws of what rules of the kinds Among, Last and Line say, each the contract of a function that
//! does nothing.

ghost use Rattle.vc_rule_grains.specs.Laws.{ConfiningSuffices, AmongFollows, AmongStands, AmongIsRead};
ghost use Rattle.vc_rule_grains.specs.Laws.{LastFollows, LastStands, LastIsRead, LineFollows, LineStands, LineIsRead};

/// Why a variable's grains are ruled out is enough for what follows.
pub fn confining_suffices()
    ensures { ConfiningSuffices }
{}

/// What a restriction against literals says follows from its premises; they stand, and are of the
/// variable.
pub fn among_follows()
    ensures follows { AmongFollows }
    ensures stands { AmongStands }
    ensures read { AmongIsRead }
{}

/// What is said of a variable's last grain follows from its premises; they stand, and are of the
/// variable or its slot.
pub fn last_follows()
    ensures follows { LastFollows }
    ensures stands { LastStands }
    ensures read { LastIsRead }
{}

/// What is said of a slot follows from its premises; they stand, and are of the slot's parent.
pub fn line_follows()
    ensures follows { LineFollows }
    ensures stands { LineStands }
    ensures read { LineIsRead }
{}
