//! What a table call needs at the places of the variables that it may narrow.

ghost use Rattle.std.specs.Prelude.{◌≡◌, ◌^◌, ◌<◌, ◌+◌, length, OnOk};
ghost use Rattle.std.specs.List.{filter};
ghost use Rattle.vc_plan.specs.declared.rules.Kind.TheVariants.{ByTable};
ghost use Rattle.vc_plan.specs.Domains.{atom_count, count_of};
ghost use Rattle.vc_plan.specs.TableRows.{columns_of, has_grain, rows_of};
ghost use Rattle.vc_net_places.specs.Cells.{all_places};
ghost use Rattle.vc_net_places.specs.Places.{index_of};
ghost use Rattle.vc_net_bounds.specs.Capping.{capped};
ghost use Rattle.vc_net_bounds.specs.Keeping.{IsKept, with_counts};
ghost use Rattle.vc_net_bounds.specs.Raising.{at_grains, at_narrowed, capped_bound, common_bound, raised_by};
ghost use Rattle.vc_net_bounds.specs.Raising.{raised_narrowed, with_rows};

use crate::capping::{capped, capped_count, capped_sum};
use crate::keeping::{Kept, column_for};
use crate::raising::{raise_grain, raise_value};
use std::alloc::AllocError;
use vc_net_places::Places;
use vc_plan::{Binding, Plan, Rule};
use vc_plan_values::{grain_count, is_restrictable};
use vc_rule_table::grains::has_grain;
use vc_rule_table::rows::{has_column, rows_of};
use vc_value::{Listed, Value};

/// How many of the rows have the grain, as far as that is told.
#[tactic(auto, using(crate::proofs::CappingLemmas::row_next, crate::proofs::CappingLemmas::sum_done))]
pub fn count_rows(
    plan: &Plan,
    columns: &[Binding],
    var: u32,
    grain: usize,
    rows: &[Listed<Value>],
) -> u32
    ensures { result ≡ capped (length (filter (has_grain plan.now var (columns_of var columns.now) grain) rows.now)) }
{
    let mut count = 0;
    let mut rest = rows;
    while let [row, more @ ..] = rest {
        let has = has_grain(plan, var, columns, grain, row.as_slice());
        count = capped_count(has, count);
        rest = more;
    }
    count
}

fn raise_with_counts(
    plan: &Plan,
    index: &Places,
    var: u32,
    bound: u32,
    counts: &[u32],
    bounds: &mut Listed<u32>,
)
    requires few { atom_count plan.now < 2 ^ 32 }
    requires index { index.now ≡ index_of plan.now }
    requires whole { length bounds.old ≡ length (all_places plan.now) }
    requires counts { length counts.now ≡ count_of plan.now var }
    ensures is { bounds.new ≡ raised_by (at_grains var (with_counts counts.now bound))
        (all_places plan.now) bounds.old }
    ensures whole { length bounds.new ≡ length (all_places plan.now) }
{
    for grain in 0..grain_count(plan, var) {
        let own = capped_sum(bound, counts[grain as usize]);
        raise_grain(plan, index, var, grain, own, bounds);
    }
}

#[tactic(auto, using(crate::proofs::KeepingLemmas::counts_rows, crate::proofs::KeepingLemmas::counts_length))]
fn raise_with_rows(
    plan: &Plan,
    index: &Places,
    table: u32,
    columns: &[Binding],
    var: u32,
    bound: u32,
    kept: &mut Kept,
    bounds: &mut Listed<u32>,
) -> Result<(), AllocError>
    requires few { atom_count plan.now < 2 ^ 32 }
    requires index { index.now ≡ index_of plan.now }
    requires whole { length bounds.old ≡ length (all_places plan.now) }
    requires kept { IsKept plan.now kept.old }
    ensures kept { OnOk result (IsKept plan.now kept.new) }
    ensures is { OnOk result (bounds.new ≡ raised_by (at_grains var (with_rows plan.now table columns.now var bound))
        (all_places plan.now) bounds.old) }
    ensures whole { OnOk result (length bounds.new ≡ length (all_places plan.now)) }
{
    match column_for(plan, table, columns, var) {
        Some(column) => {
            let place = kept.place_of(plan, var, column)?;
            raise_with_counts(plan, index, var, bound, kept.counts_at(place), bounds);
        }
        None => {
            let counts = kept.count_anew(plan, table, columns, var)?;
            raise_with_counts(plan, index, var, bound, counts.as_slice(), bounds);
        }
    }
    Ok(())
}

#[tactic(auto, using(crate::proofs::CappingLemmas::sum_second))]
fn with_all_rows(plan: &Plan, table: u32, bound: u32) -> u32
    ensures { result ≡ capped (bound + length (rows_of plan.now table)) }
{
    capped_sum(bound, capped(rows_of(plan, table).len()))
}

// Raises the bounds at the variable, where a column is given it.
#[tactic(auto, using(crate::proofs::KindLemmas::narrowed_steps))]
fn raise_narrowed(
    plan: &Plan,
    index: &Places,
    table: u32,
    columns: &[Binding],
    var: u32,
    bound: u32,
    kept: &mut Kept,
    bounds: &mut Listed<u32>,
) -> Result<(), AllocError>
    requires few { atom_count plan.now < 2 ^ 32 }
    requires index { index.now ≡ index_of plan.now }
    requires whole { length bounds.old ≡ length (all_places plan.now) }
    requires kept { IsKept plan.now kept.old }
    ensures kept { OnOk result (IsKept plan.now kept.new) }
    ensures is { OnOk result (bounds.new ≡ raised_by (at_narrowed plan.now table columns.now bound var)
        (all_places plan.now) bounds.old) }
    ensures whole { OnOk result (length bounds.new ≡ length (all_places plan.now)) }
{
    if has_column(columns, var) {
        if is_restrictable(plan, var) {
            raise_with_rows(plan, index, table, columns, var, bound, kept, bounds)?;
        } else {
            raise_value(plan, index, var, with_all_rows(plan, table, bound), bounds);
        }
    }
    Ok(())
}

fn raise_all_narrowed(
    plan: &Plan,
    index: &Places,
    table: u32,
    columns: &[Binding],
    vars: &[u32],
    bound: u32,
    kept: &mut Kept,
    bounds: &mut Listed<u32>,
) -> Result<(), AllocError>
    requires few { atom_count plan.now < 2 ^ 32 }
    requires index { index.now ≡ index_of plan.now }
    requires whole { length bounds.old ≡ length (all_places plan.now) }
    requires kept { IsKept plan.now kept.old }
    ensures kept { OnOk result (IsKept plan.now kept.new) }
    ensures is { OnOk result (bounds.new ≡ raised_narrowed plan.now table columns.now bound vars.now bounds.old) }
    ensures whole { OnOk result (length bounds.new ≡ length (all_places plan.now)) }
{
    let mut rest = vars;
    while let [var, more @ ..] = rest {
        raise_narrowed(plan, index, table, columns, *var, bound, kept, bounds)?;
        rest = more;
    }
    Ok(())
}

/// Raises the bounds at the variables that the table call may narrow.
#[tactic(auto, using(crate::proofs::KindLemmas::table_raised))]
pub fn raise_table(
    plan: &Plan,
    index: &Places,
    rule: &Rule,
    table: u32,
    columns: &Listed<Binding>,
    common: u32,
    kept: &mut Kept,
    bounds: &mut Listed<u32>,
) -> Result<(), AllocError>
    requires few { atom_count plan.now < 2 ^ 32 }
    requires index { index.now ≡ index_of plan.now }
    requires whole { length bounds.old ≡ length (all_places plan.now) }
    requires kept { IsKept plan.now kept.old }
    requires common { common ≡ capped (common_bound plan.now rule.now (ByTable table columns.now)) }
    ensures kept { OnOk result (IsKept plan.now kept.new) }
    ensures is { OnOk result (bounds.new ≡ raised_by (capped_bound plan.now rule.now (ByTable table columns.now))
        (all_places plan.now) bounds.old) }
    ensures whole { OnOk result (length bounds.new ≡ length (all_places plan.now)) }
{
    raise_all_narrowed(
        plan,
        index,
        table,
        columns.as_slice(),
        rule.inferred.as_slice(),
        common,
        kept,
        bounds,
    )
}
