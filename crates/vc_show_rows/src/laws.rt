//! A law of the definitions, the contract of a function that does nothing.

ghost use Rattle.vc_show_rows.specs.Fitting.{ValidPlansHaveRows};

/// A valid plan is what the calls take for granted.
pub fn valid_plans_have_rows()
    ensures { ValidPlansHaveRows }
{}
