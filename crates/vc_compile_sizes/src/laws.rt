//! What every plan keeps of a model whose dependencies are typed without a fault, each law the contract of a function
//! that does nothing.

ghost use Rattle.vc_compile_meant.specs.Scopes.{IsTyped};
ghost use Rattle.vc_compile_sizes.specs.LookUps.{HasColumnsApart, HasLookUps};
ghost use Rattle.vc_compile_sizes.specs.Sizes.{HasSizes, HasTrees};
ghost use Rattle.vc_compile_valid.specs.Domains.{HasDomains, HasLists};
ghost use Rattle.vc_compile_valid.specs.Plans.{PlansKeep};

/// A look-up gives a term to each key of its table, and fills columns that are no keys, each once.
pub fn typed_plans_have_look_ups()
    ensures { PlansKeep (λ model plan. HasColumnsApart plan → IsTyped model → HasLookUps plan) }
{}

/// Each step of what it computes stays within the limit.
pub fn typed_plans_have_sizes()
    ensures { PlansKeep (λ model plan. HasLists plan → HasDomains plan → HasTrees plan → IsTyped model
        → HasSizes plan) }
{}
