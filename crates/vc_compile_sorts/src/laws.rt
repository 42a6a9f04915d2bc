//! What every plan keeps of a model whose dependencies are typed without a fault, each law the contract of a function
//! that does nothing.

ghost use Rattle.vc_compile_meant.specs.Scopes.{IsTyped};
ghost use Rattle.vc_compile_sorts.specs.Sorts.{HasSums, HasTypes};
ghost use Rattle.vc_compile_valid.specs.Domains.{HasLists};
ghost use Rattle.vc_compile_valid.specs.Models.{KeepsParts};
ghost use Rattle.vc_compile_valid.specs.Plans.{PlansKeep};

/// Texts meet texts and numbers numbers: in conditions, rules and statements.
pub fn typed_plans_have_types()
    ensures { PlansKeep (λ model plan. HasLists plan → IsTyped model → HasTypes plan) }
{}

/// Each sum over parts is of numbers that some part has.
pub fn typed_plans_have_sums()
    ensures { PlansKeep (λ model plan. KeepsParts model → HasLists plan → IsTyped model → HasSums plan) }
{}
