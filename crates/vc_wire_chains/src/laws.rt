//! Laws of chain files, each the contract of a function that does nothing.

ghost use Rattle.vc_wire_chains.specs.Laws.{FirstFaultIsTold};

/// The line that is told is the first behind which no chain file goes on.
pub fn first_fault_is_told()
    ensures { FirstFaultIsTold }
{}
