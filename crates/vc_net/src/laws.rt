//! Laws of nets, each the contract of a function that does nothing.

ghost use Rattle.vc_net.specs.Ending.{ChainsExplain, ClashesExplain, LogsAreFew, LogsAreShort, LogsExplain};

/// The log of a net has fewer steps than its plan has atoms, so that numbers of 32 bits tell them, and one more.
pub fn logs_are_short()
    ensures few { LogsAreFew }
    ensures short { LogsAreShort }
{}

/// A net that is settled tells what explains its atoms, or what contradicts.
pub fn nets_explain()
    ensures log { LogsExplain }
    ensures chains { ChainsExplain }
    ensures clash { ClashesExplain }
{}
