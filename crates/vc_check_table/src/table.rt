//! What a table call says.

ghost use Rattle.std.specs.Prelude.{◌≡◌, ◌^◌, ◌<◌, ◌&&◌};
ghost use Rattle.vc_base.specs.Rounds.{atoms_of, is_clash};
ghost use Rattle.vc_base.specs.Sets.{has};
ghost use Rattle.std.specs.List.{list_all, list_any};
ghost use Rattle.vc_plan.specs.Domains.{atom_count, count_of, numbers_below};
ghost use Rattle.vc_plan.specs.Seen.{same_atom};
ghost use Rattle.vc_plan.specs.TableRows.{by_table, for_variable};
ghost use Rattle.vc_check_gives.specs.Parts.{all_said};
ghost use Rattle.vc_check_table.specs.Columns.{is_dropped, kept_or_out, puts_out};
ghost use Rattle.vc_check_table.specs.Columns.{gives_narrowed, says_narrowed};

use crate::agreed::agreed;
use crate::columns::is_given;
use crate::rows::{keeps, rows_of, some_is_possible};
use vc_check_gives::confining::{is_restrictable, value_part};
use vc_check_gives::{Parts, parts};
use vc_plan::{Atom, Binding, Plan, Rule, View};
use vc_plan_values::grain_count;
use vc_value::{Listed, Value};

fn is_dropped<V: View>(
    plan: &Plan,
    view: &V,
    var: u32,
    columns: &[Binding],
    rows: &[Listed<Value>],
    grain: u32,
) -> bool
    requires { atom_count plan.now < 2 ^ 32 }
    ensures { result ≡ is_dropped plan.now (V.seen view.now) var columns.now rows.now grain }
{
    grain < grain_count(plan, var) && !keeps(plan, view, var, columns, rows, grain)
}

fn puts_out<V: View>(
    plan: &Plan,
    view: &V,
    var: u32,
    columns: &[Binding],
    rows: &[Listed<Value>],
    atom: Atom,
) -> bool
    requires { atom_count plan.now < 2 ^ 32 }
    ensures { result ≡ puts_out plan.now (V.seen view.now) var columns.now rows.now atom }
{
    match atom {
        Atom::Out(other, grain) => {
            other == var && is_dropped(plan, view, var, columns, rows, grain)
        }
        _ => false,
    }
}

#[tactic(auto, using(crate::proofs::TableLemmas::giving))]
fn gives_for<V: View>(
    plan: &Plan,
    view: &V,
    table: u32,
    columns: &[Binding],
    var: u32,
    atom: Atom,
) -> bool
    requires { atom_count plan.now < 2 ^ 32 }
    ensures { result ≡ has same_atom (atoms_of (for_variable plan.now (V.seen view.now) table columns.now var)) atom }
{
    let rows = rows_of(plan, table);
    if is_restrictable(plan, var) {
        puts_out(plan, view, var, columns, rows, atom)
    } else {
        let value = agreed(plan, view, var, columns, rows);
        parts::gives(plan, Parts::Alone(value_part(plan, var, value)), atom)
    }
}

fn kept_or_out<V: View>(
    plan: &Plan,
    view: &V,
    var: u32,
    columns: &[Binding],
    rows: &[Listed<Value>],
    grain: u32,
) -> bool
    requires { atom_count plan.now < 2 ^ 32 }
    ensures { result ≡ kept_or_out plan.now (V.seen view.now) var columns.now rows.now grain }
{
    view.out(var, grain) || keeps(plan, view, var, columns, rows, grain)
}

#[tactic(auto, using(vc_base::proofs::RangeLaws::testing))]
fn dropped_are_out<V: View>(
    plan: &Plan,
    view: &V,
    var: u32,
    columns: &[Binding],
    rows: &[Listed<Value>],
) -> bool
    requires { atom_count plan.now < 2 ^ 32 }
    ensures { result ≡ list_all (kept_or_out plan.now (V.seen view.now) var columns.now rows.now)
        (numbers_below (count_of plan.now var)) }
{
    let count = grain_count(plan, var);
    let mut grain = 0;
    while grain < count {
        if !kept_or_out(plan, view, var, columns, rows, grain) {
            return false;
        }
        grain += 1;
    }
    true
}

#[tactic(auto, using(crate::proofs::TableLemmas::saying))]
fn says_for<V: View>(plan: &Plan, view: &V, table: u32, columns: &[Binding], var: u32) -> bool
    requires { atom_count plan.now < 2 ^ 32 }
    ensures { result ≡ all_said (V.seen view.now) (for_variable plan.now (V.seen view.now) table columns.now var) }
{
    let rows = rows_of(plan, table);
    if is_restrictable(plan, var) {
        dropped_are_out(plan, view, var, columns, rows)
    } else {
        let value = agreed(plan, view, var, columns, rows);
        parts::are_said(plan, view, Parts::Alone(value_part(plan, var, value)))
    }
}

/// Whether it is a clash: no row is possible.
#[tactic(auto, using(crate::proofs::TableLemmas::clash_is))]
pub fn clashes<V: View>(plan: &Plan, view: &V, rule: &Rule, table: u32, columns: &[Binding]) -> bool
    requires { atom_count plan.now < 2 ^ 32 }
    ensures { result ≡ is_clash (by_table plan.now (V.seen view.now) rule.now table columns.now) }
{
    !some_is_possible(plan, view, columns, rows_of(plan, table))
}

fn gives_narrowed<V: View>(
    plan: &Plan,
    view: &V,
    table: u32,
    columns: &[Binding],
    atom: Atom,
    var: u32,
) -> bool
    requires { atom_count plan.now < 2 ^ 32 }
    ensures { result ≡ gives_narrowed plan.now (V.seen view.now) table columns.now atom var }
{
    is_given(columns, var) && gives_for(plan, view, table, columns, var, atom)
}

fn some_gives<V: View>(
    plan: &Plan,
    view: &V,
    table: u32,
    columns: &[Binding],
    atom: Atom,
    vars: &[u32],
) -> bool
    requires { atom_count plan.now < 2 ^ 32 }
    ensures { result ≡ list_any (gives_narrowed plan.now (V.seen view.now) table columns.now atom) vars.now }
{
    let mut rest = vars;
    while let [var, more @ ..] = rest {
        if gives_narrowed(plan, view, table, columns, atom, *var) {
            return true;
        }
        rest = more;
    }
    false
}

/// Whether the atom is among it.
#[tactic(auto, using(crate::proofs::TableLemmas::giving_all))]
pub fn gives<V: View>(
    plan: &Plan,
    view: &V,
    rule: &Rule,
    table: u32,
    columns: &[Binding],
    atom: Atom,
) -> bool
    requires { atom_count plan.now < 2 ^ 32 }
    ensures { result ≡ has same_atom (atoms_of (by_table plan.now (V.seen view.now) rule.now table columns.now)) atom }
{
    some_is_possible(plan, view, columns, rows_of(plan, table))
        && some_gives(plan, view, table, columns, atom, rule.inferred.as_slice())
}

fn says_narrowed<V: View>(plan: &Plan, view: &V, table: u32, columns: &[Binding], var: u32) -> bool
    requires { atom_count plan.now < 2 ^ 32 }
    ensures { result ≡ says_narrowed plan.now (V.seen view.now) table columns.now var }
{
    !is_given(columns, var) || says_for(plan, view, table, columns, var)
}

fn all_say<V: View>(plan: &Plan, view: &V, table: u32, columns: &[Binding], vars: &[u32]) -> bool
    requires { atom_count plan.now < 2 ^ 32 }
    ensures { result ≡ list_all (says_narrowed plan.now (V.seen view.now) table columns.now) vars.now }
{
    let mut rest = vars;
    while let [var, more @ ..] = rest {
        if !says_narrowed(plan, view, table, columns, *var) {
            return false;
        }
        rest = more;
    }
    true
}

/// Whether it is no clash, and all of it is said already.
#[tactic(auto, using(crate::proofs::TableLemmas::saying_all))]
pub fn are_said<V: View>(
    plan: &Plan,
    view: &V,
    rule: &Rule,
    table: u32,
    columns: &[Binding],
) -> bool
    requires { atom_count plan.now < 2 ^ 32 }
    ensures { result ≡ all_said (V.seen view.now)
        (by_table plan.now (V.seen view.now) rule.now table columns.now) }
{
    some_is_possible(plan, view, columns, rows_of(plan, table))
        && all_say(plan, view, table, columns, rule.inferred.as_slice())
}
