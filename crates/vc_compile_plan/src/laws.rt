//! Laws of the plan of a model, each the contract of a function that does nothing.

ghost use Rattle.vc_compile_plan.specs.Laws.{DefinedPlansAreOnes};

/// The plan that is defined for a model is one that the model has.
pub fn defined_plans_are_ones()
    ensures { DefinedPlansAreOnes }
{}
