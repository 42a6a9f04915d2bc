//! What every plan keeps of a model whose dependencies are typed without a fault, each law the contract of a function
//! that does nothing.

ghost use Rattle.vc_compile_meant.specs.Calls.{HasColumns, KeepsBindings};
ghost use Rattle.vc_compile_meant.specs.Scopes.{HasNets, HasOwnSlots, HasScopes, IsTyped};
ghost use Rattle.vc_compile_meant.specs.Sorts.{HasAmounts};
ghost use Rattle.vc_compile_meant.specs.Sums.{HasNoSums};
ghost use Rattle.vc_compile_meant.specs.Trees.{KeepsObjects};
ghost use Rattle.vc_compile_valid.specs.Domains.{HasLists};
ghost use Rattle.vc_compile_valid.specs.Plans.{PlansKeep};

/// All but constraints reads what can be named where it stands, and procedures write to their own slot.
pub fn typed_plans_have_scopes()
    ensures { PlansKeep (λ model plan. IsTyped model → HasScopes plan) }
{}

/// A constraint's rule stands at one slot to four, and reads and infers variables of these alone.
pub fn typed_plans_have_own_slots()
    ensures { PlansKeep (λ model plan. KeepsObjects model → IsTyped model → HasOwnSlots plan) }
{}

/// Quantities and times are numbers made of numbers.
pub fn typed_plans_have_amounts()
    ensures { PlansKeep (λ model plan. HasLists plan → IsTyped model → HasAmounts plan) }
{}

/// Rules ask no set, and SPECIFIED under no NOT.
pub fn typed_plans_have_nets()
    ensures { PlansKeep (λ model plan. IsTyped model → HasNets plan) }
{}

/// A table call of a rule names columns, each once.
pub fn typed_plans_have_columns()
    ensures { PlansKeep (λ model plan. KeepsBindings model → IsTyped model → HasColumns plan) }
{}

/// Sums over parts stand in procedures alone.
pub fn typed_plans_have_no_sums()
    ensures { PlansKeep (λ model plan. IsTyped model → HasNoSums plan) }
{}
