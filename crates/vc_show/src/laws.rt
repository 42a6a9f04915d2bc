//! A law of the definitions, the contract of a function that does nothing.

ghost use Rattle.vc_show.specs.Fitting.{ValidPlansShow};

/// A valid plan is what the calls take for granted.
pub fn valid_plans_show()
    ensures { ValidPlansShow }
{}
