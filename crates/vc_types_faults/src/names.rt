//! Faults of names: what isn't there, and what stands twice.

ghost use Rattle.std.specs.Prelude.{◌≡◌, Some, filter_map, is_some, is_none, slice_get};
ghost use Rattle.std.specs.List.{list_any};
ghost use Rattle.vc_syntax_tree.specs.Trees.{binding_of, table_call_of};
ghost use Rattle.vc_types.specs.Looking.{member_in, member_of, table_named};
ghost use Rattle.vc_types.specs.NameFaults as faults;
ghost use Rattle.vc_types.specs.Settings.{component_class, component_classes};
ghost use Rattle.vc_types_faults.specs.Terms.{if_part};
ghost use Rattle.vc_types_meanings.specs.Seen.{seen};
ghost use Rattle.vc_types_occurrences.specs.Seen.{calls_seen, leaves_seen};

use crate::columns::bound_column;
use crate::places::{has_instance, is_constraint};
use vc_model_parts::{BillItem, Component};
use vc_syntax_tree::{Alias, Binding, NameLeaf, Object, TableCall};
use vc_types::Meaning;
use vc_types_meanings::Setting;
use vc_types_meanings::meanings::class_meant;
use vc_types_names::Names;
use vc_types_occurrences::Use;

/// Whether some operand is unknown.
pub fn some_unknown(uses: &[Use]) -> bool
    ensures { result ≡ list_any (λ u. faults.is_unknown u.meaning) uses.now }
{
    uses.iter().any(|u| matches!(u.meaning, Meaning::Unknown))
}

/// Whether some operand names an instance otherwise than by a `?` variable, in a constraint.
pub fn some_self_in_constraint(uses: &[Use]) -> bool
    ensures { result ≡ list_any (λ u. faults.is_self_in_constraint u.meaning) uses.now }
{
    uses.iter()
        .any(|u| matches!(u.meaning, Meaning::SelfInConstraint))
}

/// Whether some operand is of `$PARENT` at the root.
pub fn some_lacks_parent(uses: &[Use]) -> bool
    ensures { result ≡ list_any (λ u. faults.lacks_parent u.meaning) uses.now }
{
    uses.iter().any(|u| matches!(u.meaning, Meaning::NoParent))
}

/// Whether some operand is of `$SELF` at a line.
pub fn some_self_in_line(uses: &[Use]) -> bool
    ensures { result ≡ list_any (λ u. faults.is_self_in_line u.meaning) uses.now }
{
    uses.iter()
        .any(|u| matches!(u.meaning, Meaning::SelfInLine))
}

/// Whether some operand is of a `?` variable outside a constraint.
pub fn some_variable_outside(uses: &[Use]) -> bool
    ensures { result ≡ list_any (λ u. faults.is_variable_outside u.meaning) uses.now }
{
    uses.iter()
        .any(|u| matches!(u.meaning, Meaning::VariableOutside))
}

fn is_unknown_alias(setting: &Setting, class: Option<u32>, alias: &Alias) -> bool
    ensures { result ≡ faults.is_unknown_alias (seen setting.now) class alias.now }
{
    setting
        .names()
        .member_of(alias.characteristic.name.bytes(), class)
        .is_none()
}

fn some_unknown_alias(setting: &Setting, class: Option<u32>, aliases: &[Alias]) -> bool
    ensures { result ≡ list_any (faults.is_unknown_alias (seen setting.now) class) aliases.now }
{
    aliases
        .iter()
        .any(|alias| is_unknown_alias(setting, class, alias))
}

fn is_unknown_object(setting: &Setting, object: &Object) -> bool
    ensures { result ≡ faults.is_unknown_object (seen setting.now) object.now }
{
    let class = class_meant(setting.names(), &object.kind);
    class.is_none() || some_unknown_alias(setting, class, object.aliases.as_slice())
}

/// Whether the class or material of some object isn't there, or the characteristic of its WHERE.
pub fn some_unknown_object(setting: &Setting, objects: &[Object]) -> bool
    ensures { result ≡ list_any (faults.is_unknown_object (seen setting.now)) objects.now }
{
    objects
        .iter()
        .any(|object| is_unknown_object(setting, object))
}

fn is_unknown_column(setting: &Setting, call: &TableCall, binding: &Binding) -> bool
    ensures { result ≡ faults.is_unknown_column (seen setting.now) (table_call_of call.now) (binding_of binding.now) }
{
    bound_column(setting, call, binding).is_none()
}

fn some_unknown_column(setting: &Setting, call: &TableCall) -> bool
    ensures { result ≡ list_any (faults.is_unknown_column (seen setting.now) (table_call_of call.now))
        (table_call_of call.now).bindings }
{
    let bindings = call.bindings.as_slice();
    for binding in bindings {
        if is_unknown_column(setting, call, binding) {
            return true;
        }
    }
    false
}

fn is_unknown_call(setting: &Setting, call: &TableCall) -> bool
    ensures { result ≡ faults.is_unknown_call (seen setting.now) (table_call_of call.now) }
{
    is_unknown_table(setting, call) || some_unknown_column(setting, call)
}

fn is_unknown_table(setting: &Setting, call: &TableCall) -> bool
    ensures { result ≡ is_none (table_named (seen setting.now).model (table_call_of call.now).table.name) }
{
    setting.names().table(call.table.name.bytes()).is_none()
}

/// Whether the table or a column of some call isn't there.
pub fn some_unknown_call(setting: &Setting, calls: &[&TableCall]) -> bool
    ensures { result ≡ list_any (faults.is_unknown_call (seen setting.now)) (calls_seen calls.now) }
{
    for call in calls {
        if is_unknown_call(setting, *call) {
            return true;
        }
    }
    false
}

fn is_undeclared(setting: &Setting, leaf: &NameLeaf) -> bool
    ensures { result ≡ faults.is_undeclared (seen setting.now) leaf.now }
{
    is_constraint(setting.place().at) && setting.referent(leaf).is_none()
}

/// Whether some variable of a PART_OF isn't declared.
pub fn some_undeclared(setting: &Setting, leaves: &[&NameLeaf]) -> bool
    ensures { result ≡ list_any (faults.is_undeclared (seen setting.now)) (leaves_seen leaves.now) }
{
    for leaf in leaves {
        if is_undeclared(setting, *leaf) {
            return true;
        }
    }
    false
}

/// The class of a bill line's component, if that is an object.
pub fn component_class(names: &Names, item: &BillItem) -> Option<u32>
    ensures { result ≡ component_class names.now.model.now item.now }
{
    match item.component {
        Component::Object(object) => names.class_of(Some(object)),
        Component::Plain(_) => None,
    }
}

fn item_has(names: &Names, characteristic: Option<u32>, item: &BillItem) -> bool
    ensures { result ≡ if_part (λ class. is_some
        (member_in (slice_get (names.now.model.now).classes class) characteristic))
        (component_class names.now.model.now item.now) }
{
    match component_class(names, item) {
        Some(class) => names.member_in(class, characteristic).is_some(),
        None => false,
    }
}

#[tactic(auto, using(crate::proofs::AnyLemmas::any_option))]
fn some_item_has(names: &Names, characteristic: Option<u32>, items: &[BillItem]) -> bool
    ensures { result ≡ list_any (λ class. is_some
        (member_in (slice_get (names.now.model.now).classes class) characteristic))
        (filter_map (component_class names.now.model.now) items.now) }
{
    for item in items {
        if item_has(names, characteristic, item) {
            return true;
        }
    }
    false
}

fn some_part_has(setting: &Setting, leaf: &NameLeaf) -> bool
    ensures { result ≡ list_any (λ class. is_some (member_of (seen setting.now).model (leaf.now).name (Some class)))
        (component_classes (seen setting.now)) }
{
    let names = setting.names();
    let characteristic = names.characteristic(leaf.name.bytes());
    match names
        .model()
        .objects
        .as_slice()
        .get(setting.place().object as usize)
    {
        Some(object) => some_item_has(names, characteristic, object.bill.as_slice()),
        None => false,
    }
}

fn is_of_no_part(setting: &Setting, leaf: &NameLeaf) -> bool
    ensures { result ≡ faults.is_of_no_part (seen setting.now) leaf.now }
{
    has_instance(setting.place().at) && !some_part_has(setting, leaf)
}

/// Whether a part sum asks for what no component has.
pub fn some_of_no_part(setting: &Setting, leaves: &[&NameLeaf]) -> bool
    ensures { result ≡ list_any (faults.is_of_no_part (seen setting.now)) (leaves_seen leaves.now) }
{
    for leaf in leaves {
        if is_of_no_part(setting, *leaf) {
            return true;
        }
    }
    false
}
