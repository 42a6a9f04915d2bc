//! Laws of agendas, each the contract of a function that does nothing.

ghost use Rattle.vc_net_agenda.specs.Agendas.{GiversAreThere, OneMoreWaits, OthersStillWait, WhoComesWaits};

/// Who comes on an agenda waits then, if the plan has it, and all others still do; no more than one more waits. The
/// plan has all its givers.
pub fn who_comes_waits()
    ensures others { OthersStillWait }
    ensures itself { WhoComesWaits }
    ensures length { OneMoreWaits }
    ensures there { GiversAreThere }
{}
