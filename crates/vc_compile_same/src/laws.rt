//! Laws of models of which the same is seen, each the contract of a function that does nothing.

ghost use Rattle.vc_compile_same.specs.Laws.{FaultsAreSeen, PlansAreSeen};

/// What is seen of a model decides for which fault it has no plan.
pub fn faults_are_seen()
    ensures { FaultsAreSeen }
{}

/// What is seen of a model decides which plan it has.
pub fn plans_are_seen()
    ensures { PlansAreSeen }
{}
