//! Laws of evaluations, each the contract of a function that does nothing.

ghost use Rattle.vc_session_evaluation.specs.Costing.{NetsCostTheirWorks, NetsStartBehind};

/// Where nets have gone on one after the other, whatever was behind each, the evaluations of rules are no more than the
/// works together on what was to be done, and what is behind each then is told.
pub fn nets_cost_their_works()
    ensures { NetsCostTheirWorks }
{}

/// Where all things were behind each of them, nothing is behind those that settled.
pub fn nets_start_behind()
    ensures { NetsStartBehind }
{}
