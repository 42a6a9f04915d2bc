//! A law of the definitions, the contract of a function that does nothing.

ghost use Rattle.vc_bill.specs.Fitting.{ValidPlansBill};

/// A valid plan is what the calls take for granted.
pub fn valid_plans_bill()
    ensures { ValidPlansBill }
{}
