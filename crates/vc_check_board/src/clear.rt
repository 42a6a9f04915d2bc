//! Whether a set is clear, by what it says.

ghost use Rattle.std.specs.Prelude.{◌≡◌, ◌^◌, ◌<◌};
ghost use Rattle.std.specs.List.{list_all};
ghost use Rattle.vc_plan.specs.Clear.{are_all_out, is_clear, is_exhausted, is_named};
ghost use Rattle.vc_plan.specs.Domains.{atom_count};
ghost use Rattle.vc_plan.specs.Seen.{is_here, is_parent_here, is_slot_here, says, seen_of};
ghost use Rattle.vc_check_board.specs.Fitting.{HaveGrains, fits, grain_fits, is_apart};

use crate::values::is_value;
use vc_plan::{Atom, Plan, View, element};
use vc_plan_values::grains::holds;
use vc_plan_values::{grain_count, some_holds};
use vc_value::Value;

/// Whether the plan has what the atom is of.
pub fn is_named(plan: &Plan, atom: Atom) -> bool
    ensures { result ≡ is_named plan.now atom }
{
    match atom {
        Atom::Here(slot) => (slot as usize) < plan.slots.len(),
        Atom::Out(var, grain) => (grain as usize) < vc_plan::count_of(plan, var),
        Atom::Is(var, value) => some_holds(plan, var, value),
    }
}

/// Whether the atom is said.
pub fn says<V: View>(view: &V, atom: Atom) -> bool
    ensures { result ≡ says (V.seen view.now) atom }
{
    match atom {
        Atom::Here(slot) => view.here(slot),
        Atom::Out(var, grain) => view.out(var, grain),
        Atom::Is(var, value) => is_value(value, view.value(var)),
    }
}

fn is_slot_here<V: View>(view: &V, slot: Option<u32>) -> bool
    ensures { result ≡ is_slot_here (V.seen view.now) slot }
{
    match slot {
        Some(slot) => view.here(slot),
        None => false,
    }
}

/// Whether the variable's slot is here.
pub fn is_here<V: View>(plan: &Plan, view: &V, var: u32) -> bool
    ensures { result ≡ is_here plan.now (V.seen view.now) var }
{
    match element(plan.vars.as_slice(), var) {
        Some(x) => view.here(x.slot),
        None => false,
    }
}

/// Whether the parent of the slot is here.
pub fn is_parent_here<V: View>(plan: &Plan, view: &V, slot: u32) -> bool
    ensures { result ≡ is_parent_here plan.now (V.seen view.now) slot }
{
    match element(plan.slots.as_slice(), slot) {
        Some(slot) => is_slot_here(view, slot.parent),
        None => false,
    }
}

#[tactic(auto, using(vc_base::proofs::RangeLaws::testing))]
fn are_all_out<V: View>(plan: &Plan, view: &V, var: u32) -> bool
    requires { atom_count plan.now < 2 ^ 32 }
    ensures { result ≡ are_all_out plan.now (V.seen view.now) var }
{
    let count = grain_count(plan, var);
    let mut grain = 0;
    while grain < count {
        if !view.out(var, grain) {
            return false;
        }
        grain += 1;
    }
    true
}

fn is_exhausted<V: View>(plan: &Plan, view: &V, var: u32) -> bool
    requires { atom_count plan.now < 2 ^ 32 }
    ensures { result ≡ is_exhausted plan.now (V.seen view.now) var }
{
    is_here(plan, view, var) && are_all_out(plan, view, var)
}

fn is_apart(plan: &Plan, var: u32, grain: u32, value: Option<Value>) -> bool
    ensures { result ≡ is_apart plan.now var grain value }
{
    match value {
        Some(value) => !holds(plan, var, value, grain),
        None => true,
    }
}

// All grains of a variable are out only where the first is: there it is asked, once.
fn grain_fits<V: View>(plan: &Plan, view: &V, var: u32, grain: u32) -> bool
    requires { atom_count plan.now < 2 ^ 32 }
    ensures { result ≡ grain_fits plan.now (V.seen view.now) var grain }
{
    if grain == 0 {
        !is_exhausted(plan, view, var)
    } else {
        true
    }
}

fn fits<V: View>(plan: &Plan, view: &V, atom: Atom) -> bool
    requires { atom_count plan.now < 2 ^ 32 }
    ensures { result ≡ fits plan.now (V.seen view.now) atom }
{
    match atom {
        Atom::Here(_) => true,
        Atom::Out(var, grain) => {
            is_apart(plan, var, grain, view.value(var)) && grain_fits(plan, view, var, grain)
        }
        Atom::Is(var, value) => is_value(value, view.value(var)),
    }
}

fn all_named(plan: &Plan, set: &[Atom]) -> bool
    ensures { result ≡ list_all (is_named plan.now) set.now }
{
    let mut rest = set;
    while let [atom, more @ ..] = rest {
        if !is_named(plan, *atom) {
            return false;
        }
        rest = more;
    }
    true
}

fn all_fit<V: View>(plan: &Plan, view: &V, set: &[Atom]) -> bool
    requires { atom_count plan.now < 2 ^ 32 }
    ensures { result ≡ list_all (fits plan.now (V.seen view.now)) set.now }
{
    let mut rest = set;
    while let [atom, more @ ..] = rest {
        if !fits(plan, view, *atom) {
            return false;
        }
        rest = more;
    }
    true
}

/// Whether the set is clear, of which the view says all.
#[tactic(auto, using(crate::proofs::ClearLemmas::looking_up))]
pub fn is_clear<V: View>(plan: &Plan, view: &V, set: &[Atom]) -> bool
    requires few { atom_count plan.now < 2 ^ 32 }
    requires grains { HaveGrains plan.now }
    requires said { V.seen view.now ≡ seen_of set.now }
    ensures { result ≡ is_clear plan.now set.now }
{
    all_named(plan, set) && all_fit(plan, view, set)
}
