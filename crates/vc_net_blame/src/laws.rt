//! Laws of blame, each the contract of a function that does nothing.

ghost use Rattle.vc_net_blame.specs.Laws.{CollisionsFit, UnclearIsBlamed};

/// Where one accepted step more makes what is concluded unclear, `blame` finds a culprit, and the clash that cites its
/// premises refutes the sources.
pub fn unclear_is_blamed()
    ensures { UnclearIsBlamed }
{}

/// The premises are no more than `collision_bound` says.
pub fn collisions_fit()
    ensures { CollisionsFit }
{}
