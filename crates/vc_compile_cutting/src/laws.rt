//! What every plan keeps of a model whose dependencies are typed without a fault, each law the contract of a function
//! that does nothing.

ghost use Rattle.vc_compile_cutting.specs.Cuts.{IsCut};
ghost use Rattle.vc_compile_meant.specs.Scopes.{IsTyped};
ghost use Rattle.vc_compile_valid.specs.Domains.{HasLists};
ghost use Rattle.vc_compile_valid.specs.Plans.{PlansKeep};

/// Its variables are cut at each number that a condition, a restriction or a table puts beside them.
pub fn plans_are_cut()
    ensures { PlansKeep (λ model plan. HasLists plan → IsTyped model → IsCut plan) }
{}
