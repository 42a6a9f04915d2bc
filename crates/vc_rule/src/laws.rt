//! Laws of what rules say, each the contract of a function that does nothing.

ghost use Rattle.vc_rule.specs.Evaluating.{ValidRulesFit};
ghost use Rattle.vc_rule.specs.Laws.{FoundIsGiven, FoundStands, FoundOnce, FoundBesideRoot, FoundIsRead};
ghost use Rattle.vc_rule.specs.Bounding.{ClearLiesInGrains, FoundFitsPlaces, FoundIsFew};
ghost use Rattle.vc_rule.specs.Following.{FoundFollows, FoundIsConcluded, FoundIsNew};
ghost use Rattle.vc_rule.specs.Following.{FoundIsNext, FoundRefutes, NextIsAccepted, NextMayWait};
ghost use Rattle.vc_rule.specs.Rooming.{RoomsSuffice};

/// The rules of a valid plan can be evaluated.
pub fn valid_rules_fit()
    ensures { ValidRulesFit }
{}

/// What is found, without what it follows from, is what the rule gives.
pub fn found_is_given()
    ensures { FoundIsGiven }
{}

/// Each premise stands.
pub fn found_stands()
    ensures { FoundStands }
{}

/// No premise comes twice, and none is that the root is here.
pub fn found_once()
    ensures once { FoundOnce }
    ensures root { FoundBesideRoot }
{}

/// Each premise is of a slot or a variable that the rule reads.
pub fn found_is_read()
    ensures { FoundIsRead }
{}

/// Whatever is found by a rule at a clear set follows from its premises alone, as who checks reasons has it: each
/// conclusion is a step, and at the premises of a clash the rule clashes.
pub fn found_follows()
    ensures { FoundFollows }
{}

/// Each premise of what is found at a set is of the set, beside that the root is here; no conclusion is.
pub fn found_is_concluded()
    ensures premises { FoundIsConcluded }
    ensures atoms { FoundIsNew }
{}

/// Each conclusion that is found at what a log concludes may come next to it, also when other steps have come; and an
/// accepted log goes on with it.
pub fn found_is_next()
    ensures next { FoundIsNext }
    ensures later { NextMayWait }
    ensures accepted { NextIsAccepted }
{}

/// A clash that is found at what an accepted log concludes refutes the sources, and the rule is its culprit.
pub fn found_refutes()
    ensures { FoundRefutes }
{}

/// Values lie in grains where a clear set says them.
pub fn clear_lies_in_grains()
    ensures { ClearLiesInGrains }
{}

/// Whatever is found by a rule of a valid plan, where values lie in grains, has no more premises than the plan's bounds
/// say: each conclusion than the rule's at its place, and so than the place's; a clash than the rule's.
pub fn found_is_few()
    ensures rule { FoundIsFew }
    ensures places { FoundFitsPlaces }
{}

/// A yield that `new_yield` made of a valid plan has room for whatever is found by a rule of it, where values lie in
/// grains.
pub fn rooms_suffice()
    ensures { RoomsSuffice }
{}
