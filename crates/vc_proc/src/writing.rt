//! Entering values, and taking defaults away.

ghost use Rattle.std.specs.Prelude.{◌≡◌, if◌then◌else◌, false, None, option_map};
ghost use Rattle.vc_plan.specs.declared.atoms.Mark.TheVariants.{Held};
ghost use Rattle.vc_plan.specs.Entries.{is_soft, value_of_mark, with_entry, written_at};
ghost use Rattle.vc_plan.specs.Seen.{is_value};
ghost use Rattle.vc_plan.specs.Statements.{entered, fitted, is_default_of, mark_of, takes_default, with_default};
ghost use Rattle.vc_plan.specs.Statements.{with_hard, without_default};
ghost use Rattle.vc_plan.specs.Truth.{number_in};
ghost use Rattle.vc_plan_values.specs.Computing.{ArgumentFits, TermsFit};
ghost use Rattle.vc_plan_values.specs.Values.{meant};
ghost use Rattle.vc_rule_table.specs.Cells.{FewGrains};
ghost use Rattle.vc_proc.specs.Overlays.{EntriesLie, written_from};
ghost use Rattle.vc_proc.specs.Writing.{mark_for, place_from};

use crate::overlay::{Overlay, Written};
use vc_plan::{Mark, Plan, View};
use vc_plan_values::TermValue;
use vc_rule_sides::assigning::{Assigned, equal_to};
use vc_rule_table::cells::has_left;
use vc_rule_yield::atoms::same_value;
use vc_value::Value;

/// Which statement of which procedure.
#[derive(Clone, Copy, Debug, PartialEq, Eq)]
pub struct Place {
    pub proc: u32,
    pub statement: u32,
}

fn entered(place: Place, mark: Mark, hard: bool) -> Option<Written>
    ensures { option_map written_from result ≡ entered (place_from place) mark hard }
{
    Some(Written {
        mark,
        hard,
        proc: place.proc,
        statement: place.statement,
    })
}

fn mark_for(assigned: Assigned) -> Mark
    ensures { result ≡ mark_for assigned }
{
    match assigned {
        Assigned::To(_, value) => Mark::Held(value),
        _ => Mark::Outside,
    }
}

// The mark of the value with the variable's decimals.
#[tactic(auto, using(crate::proofs::WritingLemmas::mark_is))]
fn mark_of(plan: &Plan, var: u32, value: TermValue) -> Mark
    requires fit { TermsFit plan.now }
    requires small { ArgumentFits (number_in (meant value)) }
    ensures { result ≡ mark_of plan.now var (fitted plan.now var (meant value)) }
{
    mark_for(equal_to(plan, Some(var), Some(value)))
}

/// Enters the value for the variable, in the place of whatever stands. The caller sees that a number is at most
/// 10^36 - 10^6 millionths in absolute value.
pub fn enter_hard(plan: &Plan, place: Place, var: u32, value: TermValue, overlay: &mut Overlay)
    requires fit { TermsFit plan.now }
    requires small { ArgumentFits (number_in (meant value)) }
    ensures { overlay.new ≡ with_hard plan.now (place_from place) var (meant value) overlay.old }
{
    let mark = mark_of(plan, var, value);
    overlay.enter(var, entered(place, mark, true));
}

fn is_soft(written: Option<Written>) -> bool
    ensures { result ≡ is_soft (option_map written_from written) }
{
    match written {
        Some(written) => !written.hard,
        None => true,
    }
}

// Whether the variable isn't known in the stage, nothing hard stands, and the value is left.
fn takes_default<V: View>(plan: &Plan, view: &V, var: u32, value: Value, overlay: &Overlay) -> bool
    requires { FewGrains plan.now }
    ensures { result ≡ takes_default plan.now (V.seen view.now) var value overlay.now }
{
    match view.value(var) {
        Some(_) => false,
        None => is_soft(overlay.entry(var)) && has_left(plan, view, var, value),
    }
}

fn enter_if_taken<V: View>(
    plan: &Plan,
    view: &V,
    place: Place,
    var: u32,
    value: Value,
    overlay: &mut Overlay,
)
    requires { FewGrains plan.now }
    ensures { overlay.new ≡ (if takes_default plan.now (V.seen view.now) var value overlay.old
        then with_entry var (entered (place_from place) (Held value) false) overlay.old
        else overlay.old) }
{
    if takes_default(plan, view, var, value, &*overlay) {
        overlay.enter(var, entered(place, Mark::Held(value), false));
    }
}

/// Enters the value as a default where the variable isn't known in the stage, nothing hard stands and a grain with the
/// value is left. The caller sees that a number is at most 10^36 - 10^6 millionths in absolute value.
pub fn enter_default<V: View>(
    plan: &Plan,
    view: &V,
    place: Place,
    var: u32,
    value: TermValue,
    overlay: &mut Overlay,
)
    requires fit { TermsFit plan.now }
    requires few { FewGrains plan.now }
    requires small { ArgumentFits (number_in (meant value)) }
    ensures { overlay.new ≡ with_default plan.now (V.seen view.now) (place_from place) var (meant value) overlay.old }
{
    match mark_of(plan, var, value) {
        Mark::Held(value) => enter_if_taken(plan, view, place, var, value, overlay),
        Mark::Outside => {}
    }
}

fn holds(mark: Mark, value: Value) -> bool
    ensures { result ≡ is_value value (value_of_mark mark) }
{
    match mark {
        Mark::Held(held) => same_value(value, held),
        Mark::Outside => false,
    }
}

fn is_default_of(value: Value, written: Option<Written>) -> bool
    ensures { result ≡ is_default_of value (option_map written_from written) }
{
    match written {
        Some(written) => !written.hard && holds(written.mark, value),
        None => false,
    }
}

fn remove_default(var: u32, value: Value, overlay: &mut Overlay)
    ensures { overlay.new ≡ (if is_default_of value (written_at overlay.old var)
        then with_entry var None overlay.old
        else overlay.old) }
{
    if is_default_of(value, overlay.entry(var)) {
        overlay.enter(var, None);
    }
}

/// Takes away a default of this value. The caller sees that a number is at most 10^36 - 10^6 millionths in absolute
/// value.
pub fn take_default(plan: &Plan, var: u32, value: TermValue, overlay: &mut Overlay)
    requires fit { TermsFit plan.now }
    requires small { ArgumentFits (number_in (meant value)) }
    requires lie { EntriesLie plan.now overlay.old }
    ensures { overlay.new ≡ without_default plan.now var (meant value) overlay.old }
{
    match mark_of(plan, var, value) {
        Mark::Held(value) => remove_default(var, value, overlay),
        Mark::Outside => {}
    }
}
