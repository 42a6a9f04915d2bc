//! Laws of the stages of an evaluation, each the contract of a function that does nothing.

ghost use Rattle.vc_session_stages.specs.Stages.{LastSetSettles, LateIsSeen, SetsSayTheSame, StagesBegin, StagesBreak};
ghost use Rattle.vc_session_stages.specs.Stages.{StagesGoOn, StagesSettle, WasHereIsSeen};

/// An evaluation begins with no stage and nothing written; each stage that settles leads on to the next.
pub fn stages_go_on()
    ensures begins { StagesBegin }
    ensures goes_on { StagesGoOn }
{}

/// It ends where a stage is broken, or the last settles.
pub fn stages_end()
    ensures breaks { StagesBreak }
    ensures settles { StagesSettle }
{}

/// Its last set is where the last stage settled.
pub fn last_sets_settle()
    ensures { LastSetSettles }
{}

/// Which instances were here when their procedures ran, and which are late, is told by what the stages' sets say.
pub fn stages_are_seen()
    ensures was_here { WasHereIsSeen }
    ensures late { LateIsSeen }
{}

/// Two sets of the same atoms, one of them clear, say the same.
pub fn sets_say_the_same()
    ensures { SetsSayTheSame }
{}
