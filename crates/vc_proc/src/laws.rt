//! Laws of what is written before a stage, each the contract of a function that does nothing.

ghost use Rattle.vc_proc.specs.Laws.{DepthsAreWritten, NoneAreReplicas, NothingLies, StagesKeepLengths};
ghost use Rattle.vc_proc.specs.Laws.{SumsAreWritten, ValidCanRun};

/// Of a valid plan procedures can run.
pub fn valid_can_run()
    ensures { ValidCanRun }
{}

/// What is written before a stage is what the definitions say of its set, by depth or by sums.
pub fn stages_are_written()
    ensures depths { DepthsAreWritten }
    ensures sums { SumsAreWritten }
{}

/// Where nothing is written, nothing lies outside the grains.
pub fn nothing_lies()
    ensures { NothingLies }
{}

/// An emptied overlay of a plan's variables has no entries of the plan, and what is written before a stage leaves as
/// many.
pub fn lengths_are_kept()
    ensures none { NoneAreReplicas }
    ensures stages { StagesKeepLengths }
{}
