//! Laws of what is found by any giver, each the contract of a function that does nothing.

ghost use Rattle.vc_net_sources.specs.Laws.{ClashFitsCells, FoundFitsCells, FoundIsConcluded, FoundIsGiven};
ghost use Rattle.vc_net_sources.specs.Laws.{FoundIsNew, FoundIsNext, FoundRefutes, GrainsFitPlaces, RestingAreQuiet};
ghost use Rattle.vc_net_sources.specs.Laws.{RoomsSuffice, SilentSourcesCostNothing, SilentSourcesFindNothing};

/// What is found, without what it follows from, is what the giver gives. Each premise is of the set at which it is
/// asked, beside that the root is here, and no conclusion stands there.
pub fn found_is_given()
    ensures given { FoundIsGiven }
    ensures premises { FoundIsConcluded }
    ensures new { FoundIsNew }
{}

/// Each conclusion that is found at what a log concludes may come next to it, by the origin that names the giver.
pub fn found_is_next()
    ensures { FoundIsNext }
{}

/// A clash that is found at what an accepted log concludes refutes sources that fit, and the giver has a culprit.
pub fn found_refutes()
    ensures { FoundRefutes }
{}

/// Whatever is found in a valid plan has no more premises than there are cells for: a conclusion at its place, a clash
/// where those of one are kept.
pub fn found_fits_cells()
    ensures conclusions { FoundFitsCells }
    ensures clashes { ClashFitsCells }
{}

/// A yield that `new_yield` made of a valid plan has room for whatever any giver says, where values lie in grains.
pub fn rooms_suffice()
    ensures { RoomsSuffice }
{}

/// A variable of a valid plan has no more grains than its value may have premises: it has the rule of its last grain.
pub fn grains_fit_places()
    ensures { GrainsFitPlaces }
{}

/// A source that tells nothing finds nothing, whatever stands, and to ask it is no evaluation of a rule.
pub fn silent_sources_find_nothing()
    ensures found { SilentSourcesFindNothing }
    ensures cost { SilentSourcesCostNothing }
{}

/// A rule that rests at what stands, and a source that tells nothing, doesn't clash, and all that it says stands.
pub fn resting_are_quiet()
    ensures { RestingAreQuiet }
{}
