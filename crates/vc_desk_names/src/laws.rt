//! Laws of what is meant, each the contract of a function that does nothing.

ghost use Rattle.vc_desk_names.specs.Laws.{ListedMayBeGiven, OwnNamesAreMeant};

/// A value that is read may be given.
pub fn listed_may_be_given()
    ensures { ListedMayBeGiven }
{}

/// Each characteristic of a slot's class is one of its variables or sets.
pub fn own_names_are_meant()
    ensures { OwnNamesAreMeant }
{}
