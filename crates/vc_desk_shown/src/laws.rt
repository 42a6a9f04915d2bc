//! Laws of sessions, each the contract of a function that does nothing.

ghost use Rattle.vc_desk_shown.specs.Laws.{SettledSessionsReach, StandingsHaveOneStatus};

/// A session of which no stage is broken says what the evaluation of the user's values reaches.
pub fn settled_sessions_reach()
    ensures { SettledSessionsReach }
{}

/// What a user chose, and whom the session blames, have one status.
pub fn standings_have_one_status()
    ensures { StandingsHaveOneStatus }
{}
