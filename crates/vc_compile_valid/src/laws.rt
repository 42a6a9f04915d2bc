//! What every plan of a model keeps, each law the contract of a function that does nothing.

ghost use Rattle.std.specs.Prelude.{◌≡◌, true};
ghost use Rattle.std.specs.List.{list_all};
ghost use Rattle.vc_plan.specs.Ranges.{slot_there};
ghost use Rattle.vc_compile_valid.specs.Domains.{HasDomains, HasLists};
ghost use Rattle.vc_compile_valid.specs.Models.{KeepsParts, KeepsUses, KeepsValues};
ghost use Rattle.vc_compile_valid.specs.Places.{HasFew, HasFewProcedures, HasOnce, HasPlaces};
ghost use Rattle.vc_compile_valid.specs.Plans.{PlansKeep};
ghost use Rattle.vc_compile_valid.specs.Rules.{HasRules};
ghost use Rattle.vc_compile_valid.specs.Slots.{HasLineSlots, HasOneBill, HasPreorder};

/// Its rules are numbered, none stands twice, each variable has one Last and each slot but the root a Line; what is of
/// no dependency asks nothing, and no variable alone is compared with a literal.
pub fn plans_have_rules()
    ensures { PlansKeep (λ model plan. HasRules plan) }
{}

/// Its slots are in preorder, each one level below the slot whose line it stands for, and by item.
pub fn plans_have_preorder()
    ensures { PlansKeep (λ model plan. HasPreorder plan) }
{}

/// A line that has an object has one slot, of that object, and another line none.
pub fn plans_have_line_slots()
    ensures { PlansKeep (λ model plan. KeepsParts model → list_all (slot_there plan) plan.slots ≡ true
        → HasLineSlots plan) }
{}

/// Slots of one object have its lines and its operations.
pub fn plans_have_one_bill()
    ensures { PlansKeep (λ model plan. HasOneBill plan) }
{}

/// Its procedures and preconditions are by slot, class order and list order, and what stands at a value stands at a
/// listed one.
pub fn plans_have_places()
    ensures { PlansKeep (λ model plan. KeepsValues model → HasOnce plan → HasPlaces plan) }
{}

/// It has fewer procedures than 2^32.
pub fn plans_have_few_procedures()
    ensures { PlansKeep (λ model plan. KeepsValues model → KeepsUses model → HasFew plan → HasFewProcedures plan) }
{}

/// Its domains are the lists of characteristics cut up: no number is lost or new, and each variable has a grain.
pub fn plans_have_domains()
    ensures { PlansKeep (λ model plan. KeepsValues model → HasLists plan → HasDomains plan) }
{}
