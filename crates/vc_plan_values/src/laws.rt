//! A law of the definitions, the contract of a function that does nothing.

ghost use Rattle.vc_plan_values.specs.Computing.{ValidTermsFit};

/// In a valid plan conditions and terms name what is there, and no step of them is too wide.
pub fn valid_terms_fit()
    ensures { ValidTermsFit }
{}
