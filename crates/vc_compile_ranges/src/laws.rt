//! What every plan keeps of a model whose dependencies are typed without a fault, each law the contract of a function
//! that does nothing.

ghost use Rattle.vc_compile_meant.specs.Scopes.{HasOwnSlots, HasScopes, IsTyped};
ghost use Rattle.vc_compile_ranges.specs.Numbers.{KeepsNumbers};
ghost use Rattle.vc_compile_ranges.specs.Ranges.{HasRanges};
ghost use Rattle.vc_compile_valid.specs.Domains.{HasLists};
ghost use Rattle.vc_compile_valid.specs.Places.{HasPlaces};
ghost use Rattle.vc_compile_valid.specs.Plans.{PlansKeep};

/// Conditions, terms, rules and procedures name things that the plan has.
pub fn typed_plans_have_ranges()
    ensures { PlansKeep (λ model plan. KeepsNumbers model → HasLists plan → HasPlaces plan → HasScopes plan
        → HasOwnSlots plan → IsTyped model → HasRanges plan) }
{}
