//! A law of the desk, the contract of a function that does nothing.

ghost use Rattle.vc_desk.specs.Laws.{ConflictsBlameWhomTheStatusNamed};

/// `conflict` blames whom the status named that was replied when the session became as it is.
pub fn conflicts_blame_whom_the_status_named()
    ensures { ConflictsBlameWhomTheStatusNamed }
{}
