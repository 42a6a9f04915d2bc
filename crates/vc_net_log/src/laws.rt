//! Laws of logs, each the contract of a function that does nothing.

ghost use Rattle.vc_net_log.specs.Laws.{BoundsAreCounted, NewStepsAreFree, PremisesAreCited, RoomsAreBounds};
ghost use Rattle.vc_net_log.specs.Laws.{StepsConclude};

/// The numbers by which a step cites premises that are concluded cite just these.
pub fn premises_are_cited()
    ensures { PremisesAreCited }
{}

/// A step more concludes one atom more, after the others.
pub fn steps_conclude()
    ensures { StepsConclude }
{}

/// What leaves a log's set clear and doesn't stand yet may come: its place is free.
pub fn new_steps_are_free()
    ensures { NewStepsAreFree }
{}

/// There is room at each atom's place for as many premises as the plan's bound says of it.
pub fn rooms_are_bounds()
    ensures rooms { RoomsAreBounds }
    ensures counted { BoundsAreCounted }
{}
