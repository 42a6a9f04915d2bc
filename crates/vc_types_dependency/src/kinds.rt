//! The kinds of faults, each over all that stands in a dependency.

ghost use Rattle.std.specs.Prelude.{◌≡◌, ◌&&◌, not, IfOk, flat_map};
ghost use Rattle.std.specs.List.{list_any};
ghost use Rattle.vc_types.specs.Looking.{table_named};
ghost use Rattle.vc_types.specs.NameFaults as names;
ghost use Rattle.vc_types.specs.Occurrences as occurrences;
ghost use Rattle.vc_types.specs.PlaceFaults as places;
ghost use Rattle.vc_types.specs.RangeFaults as ranges;
ghost use Rattle.vc_types.specs.Settings as settings;
ghost use Rattle.vc_types.specs.SortFaults as sorts;
ghost use Rattle.vc_types_dependency.specs.DeclaredNames.{declared_names};
ghost use Rattle.vc_types_dependency.specs.Found.{IsFound, setting_in, tree_in};
ghost use Rattle.vc_types_meanings.specs.Borrowed.{tree_of};

use crate::doubles::{declares_twice, some_names_column_twice};
use crate::found::Found;
use std::alloc::{AllocError, Global};
use vc_syntax_tree::Object;
use vc_types_faults::columns::some_wrong_look_up;
use vc_types_faults::names::{
    some_lacks_parent, some_of_no_part, some_self_in_constraint, some_self_in_line,
    some_undeclared, some_unknown, some_unknown_call, some_unknown_object, some_variable_outside,
};
use vc_types_faults::places::{
    is_constraint, is_for_net, is_line, is_procedure, part_of_place, some_denies_specified,
    some_has_computed, some_has_sum,
};
use vc_types_meanings::Tree;
use vc_types_sorts::sizes::some_gets_too_large;
use vc_types_sorts::sorts::{
    acts_or_counts_wrongly, some_calls_wrongly, some_computes_with_text, some_declares_set,
    some_misuses_set, some_other_variable, some_parts_a_value, some_relates_wrongly, some_set,
    some_sums_texts,
};

fn objects_in<'a>(tree: Tree<'a>) -> &'a [Object]
    ensures { result.now ≡ names.objects_in (tree_of tree.entry) }
{
    match tree {
        Tree::Constraint(constraint) => constraint.objects.as_slice(),
        _ => &[],
    }
}

fn operand_unknown(found: &Found) -> bool
    requires { IsFound found.now }
    ensures { result ≡ names.some_operand names.is_unknown (setting_in found.now) (tree_in found.now) }
{
    some_unknown(found.leaves.uses.as_slice())
}

fn self_in_constraint(found: &Found) -> bool
    requires { IsFound found.now }
    ensures { result ≡ names.some_operand names.is_self_in_constraint (setting_in found.now) (tree_in found.now) }
{
    some_self_in_constraint(found.leaves.uses.as_slice())
}

fn operand_lacks_parent(found: &Found) -> bool
    requires { IsFound found.now }
    ensures { result ≡ names.some_operand names.lacks_parent (setting_in found.now) (tree_in found.now) }
{
    some_lacks_parent(found.leaves.uses.as_slice())
}

fn self_in_line(found: &Found) -> bool
    requires { IsFound found.now }
    ensures { result ≡ names.some_operand names.is_self_in_line (setting_in found.now) (tree_in found.now) }
{
    some_self_in_line(found.leaves.uses.as_slice())
}

fn operand_strays(found: &Found) -> bool
    requires { IsFound found.now }
    ensures { result ≡ names.some_operand names.is_variable_outside (setting_in found.now) (tree_in found.now) }
{
    some_variable_outside(found.leaves.uses.as_slice())
}

fn other_variable(found: &Found) -> bool
    requires { IsFound found.now }
    ensures { result ≡ names.some_operand sorts.is_other_variable (setting_in found.now) (tree_in found.now) }
{
    some_other_variable(found.leaves.uses.as_slice())
}

fn misuses_set(found: &Found) -> bool
    requires { IsFound found.now }
    ensures { result ≡ list_any (sorts.misuses_set (setting_in found.now)) (occurrences.uses_in (tree_in found.now)) }
{
    some_misuses_set(found.setting.names(), found.leaves.uses.as_slice())
}

fn uses_set(found: &Found) -> bool
    requires { IsFound found.now }
    ensures { result ≡ list_any (places.uses_set (setting_in found.now)) (occurrences.uses_in (tree_in found.now)) }
{
    some_set(found.setting.names(), found.leaves.uses.as_slice())
}

fn call_unknown(found: &Found) -> bool
    requires { IsFound found.now }
    ensures { result ≡ list_any (names.is_unknown_call (setting_in found.now))
        (occurrences.calls_in (tree_in found.now)) }
{
    some_unknown_call(found.setting, found.parts.calls.as_slice())
}

fn call_wrong(found: &Found) -> bool
    requires { IsFound found.now }
    ensures { result ≡ list_any (sorts.calls_wrongly (setting_in found.now))
        (occurrences.calls_in (tree_in found.now)) }
{
    some_calls_wrongly(found.setting, found.parts.calls.as_slice())
}

fn call_computes(found: &Found) -> bool
    requires { IsFound found.now }
    ensures { result ≡ list_any (λ call. list_any places.is_computed call.bindings)
        (occurrences.calls_in (tree_in found.now)) }
{
    some_has_computed(found.parts.calls.as_slice())
}

fn call_looks_up_wrongly(found: &Found) -> bool
    requires { IsFound found.now }
    ensures { result ≡ list_any (λ call. places.looks_up_wrongly (setting_in found.now) call
        (table_named (setting_in found.now).model call.table.name)) (occurrences.calls_in (tree_in found.now)) }
{
    some_wrong_look_up(found.setting, found.parts.calls.as_slice())
}

fn object_unknown(found: &Found) -> bool
    requires { IsFound found.now }
    ensures { result ≡ list_any (names.is_unknown_object (setting_in found.now))
        (names.objects_in (tree_in found.now)) }
{
    some_unknown_object(found.setting, objects_in(found.tree))
}

fn object_declares_set(found: &Found) -> bool
    requires { IsFound found.now }
    ensures { result ≡ list_any (sorts.declares_set (setting_in found.now)) (names.objects_in (tree_in found.now)) }
{
    some_declares_set(found.setting, objects_in(found.tree))
}

fn part_undeclared(found: &Found) -> bool
    requires { IsFound found.now }
    ensures { result ≡ list_any (names.is_undeclared (setting_in found.now))
        (occurrences.parted_names (tree_in found.now)) }
{
    some_undeclared(found.setting, found.leaves.parted.as_slice())
}

fn part_is_value(found: &Found) -> bool
    requires { IsFound found.now }
    ensures { result ≡ list_any (sorts.parts_a_value (setting_in found.now))
        (occurrences.parted_names (tree_in found.now)) }
{
    some_parts_a_value(found.setting, found.leaves.parted.as_slice())
}

fn asks_parted(found: &Found) -> bool
    requires { IsFound found.now }
    ensures { result ≡ names.has_some (occurrences.parted_names (tree_in found.now)) }
{
    !found.leaves.parted.as_slice().is_empty()
}

fn sum_of_no_part(found: &Found) -> bool
    requires { IsFound found.now }
    ensures { result ≡ list_any (names.is_of_no_part (setting_in found.now))
        (occurrences.summed_names (tree_in found.now)) }
{
    some_of_no_part(found.setting, found.leaves.summed.as_slice())
}

fn sum_of_texts(found: &Found) -> bool
    requires { IsFound found.now }
    ensures { result ≡ list_any (sorts.sums_texts (setting_in found.now))
        (occurrences.summed_names (tree_in found.now)) }
{
    some_sums_texts(found.setting, found.leaves.summed.as_slice())
}

fn asks_sum(found: &Found) -> bool
    requires { IsFound found.now }
    ensures { result ≡ occurrences.asks_sum (tree_in found.now) }
{
    some_has_sum(found.terms.all.as_slice())
}

fn computes_with_text(found: &Found) -> bool
    requires { IsFound found.now }
    ensures { result ≡ list_any (sorts.computes_with_text (setting_in found.now))
        (occurrences.terms_in (tree_in found.now)) }
{
    some_computes_with_text(found.setting, found.terms.all.as_slice())
}

fn relates_wrongly(found: &Found) -> bool
    requires { IsFound found.now }
    ensures { result ≡ list_any (sorts.relates_wrongly (setting_in found.now))
        (occurrences.relations_in (tree_in found.now)) }
{
    some_relates_wrongly(found.setting, found.parts.relations.as_slice())
}

fn denies_specified(found: &Found) -> bool
    requires { IsFound found.now }
    ensures { result ≡ list_any places.denies_specified (occurrences.conditions_in (tree_in found.now)) }
{
    some_denies_specified(found.parts.conditions.as_slice())
}

fn acts_wrongly(found: &Found) -> bool
    requires { IsFound found.now }
    ensures { result ≡ sorts.acts_or_counts_wrongly (setting_in found.now) (tree_in found.now) }
{
    acts_or_counts_wrongly(found.setting, found.tree)
}

/// What isn't there.
pub fn unknown_name(found: &Found) -> bool
    requires { IsFound found.now }
    ensures { result ≡ names.unknown_name (setting_in found.now) (tree_in found.now) }
{
    (operand_unknown(found) || (object_unknown(found) || call_unknown(found)))
        || (part_undeclared(found) || sum_of_no_part(found))
}

/// What stands twice.
pub fn double_name(alloc: Global, found: &Found) -> Result<bool, AllocError>
    requires { IsFound found.now }
    ensures { IfOk result (λ twice. twice ≡ names.double_name (setting_in found.now) (tree_in found.now)) }
{
    let declared = declares_twice(alloc, objects_in(found.tree))?;
    let named = some_names_column_twice(alloc, found.parts.calls.as_slice())?;
    Ok(declared || named)
}

/// What stands where something else belongs.
pub fn wrong_kind(found: &Found) -> bool
    requires { IsFound found.now }
    ensures { result ≡ sorts.wrong_kind (setting_in found.now) (tree_in found.now) }
{
    ((relates_wrongly(found) || computes_with_text(found))
        || (acts_wrongly(found) || call_wrong(found)))
        || ((other_variable(found) || part_is_value(found))
            || ((misuses_set(found) || object_declares_set(found)) || sum_of_texts(found)))
}

/// What the net can't ask.
pub fn not_monotone(found: &Found) -> bool
    requires { IsFound found.now }
    ensures { result ≡ places.not_monotone (setting_in found.now) (tree_in found.now) }
{
    is_for_net(found.setting.place().at) && (denies_specified(found) || uses_set(found))
}

/// A constraint that speaks of an instance otherwise than by a variable.
pub fn self_named(found: &Found) -> bool
    requires { IsFound found.now }
    ensures { result ≡ names.self_named (setting_in found.now) (tree_in found.now) }
{
    self_in_constraint(found) || (is_constraint(found.setting.place().at) && asks_sum(found))
}

/// `$PARENT` at the root.
pub fn parent_missing(found: &Found) -> bool
    requires { IsFound found.now }
    ensures { result ≡ names.parent_missing (setting_in found.now) (tree_in found.now) }
{
    operand_lacks_parent(found)
}

/// `$SELF` at a line.
pub fn self_of_line(found: &Found) -> bool
    requires { IsFound found.now }
    ensures { result ≡ names.self_of_line (setting_in found.now) (tree_in found.now) }
{
    self_in_line(found) || (is_line(found.setting.place().at) && asks_sum(found))
}

/// A `?` variable outside a constraint.
pub fn strays(found: &Found) -> bool
    requires { IsFound found.now }
    ensures { result ≡ names.strays (setting_in found.now) (tree_in found.now) }
{
    operand_strays(found) || (!is_constraint(found.setting.place().at) && asks_parted(found))
}

/// A wrong look-up of a procedure.
pub fn no_key(found: &Found) -> bool
    requires { IsFound found.now }
    ensures { result ≡ places.no_key (setting_in found.now) (tree_in found.now) }
{
    is_procedure(found.tree) && call_looks_up_wrongly(found)
}

/// A term of a constraint's call that is neither a characteristic nor a literal.
pub fn not_a_term(found: &Found) -> bool
    requires { IsFound found.now }
    ensures { result ≡ places.not_a_term (setting_in found.now) (tree_in found.now) }
{
    is_constraint(found.setting.place().at) && call_computes(found)
}

/// A part sum elsewhere than in a procedure.
pub fn sum_place(found: &Found) -> bool
    requires { IsFound found.now }
    ensures { result ≡ places.sum_place (tree_in found.now) }
{
    !is_procedure(found.tree) && asks_sum(found)
}

/// A number that may get too large.
pub fn range_too_wide(found: &Found) -> bool
    requires { IsFound found.now }
    ensures { result ≡ ranges.range_too_wide (setting_in found.now) (tree_in found.now) }
{
    some_gets_too_large(found.setting, found.terms.all.as_slice())
}

/// PART_OF elsewhere than in CONDITION, alone or joined by AND.
pub fn hides_part(found: &Found) -> bool
    requires { IsFound found.now }
    ensures { result ≡ places.part_of_place (tree_in found.now) }
{
    part_of_place(found.tree, found.parts.conditions.as_slice())
}

/// More than four variables of objects.
pub fn too_many_objects(found: &Found) -> bool
    requires { IsFound found.now }
    ensures { result ≡ names.too_many_objects (tree_in found.now) }
{
    4 < objects_in(found.tree).len()
}
