//! Which grains of a restrictable variable no possible row of a table has.

ghost use Rattle.std.specs.Prelude.{◌≡◌, ◌^◌, ◌<◌, ◌&&◌, [], ◌∷◌, length, map, slice_get, IsTrue, Some};
ghost use Rattle.std.specs.List.{filter, list_any};
ghost use Rattle.vc_plan.specs.Domains.{count_of, domain_of, numbers_below};
ghost use Rattle.vc_plan.specs.TableRows.{columns_of, is_possible_in, missing_grains, other_columns};
ghost use Rattle.vc_rule_premises.specs.Citing.{cited_all};
ghost use Rattle.vc_rule_premises.specs.Saying.{take_conclusions};
ghost use Rattle.vc_rule_table.specs.Cells.{FewGrains};
ghost use Rattle.vc_rule_table.specs.Noting.{AreNotes, HasNote};
ghost use Rattle.vc_rule_table.specs.TableSaid.{grain_out, has_column, new_conclusions};
ghost use Rattle.vc_rule_table_grains.specs.Calls.{IsCall, IsMarkedCall, has, is_new, is_possible};
ghost use Rattle.vc_rule_table_grains.specs.Calls.{loses, narrowed, possible_rows, reasons_of, rows_with};
ghost use Rattle.vc_rule_table_grains.specs.Keys.{grain_key};
ghost use Rattle.vc_rule_table_grains.specs.Marking.{AreChains, at_key};

use crate::calls::{MarkedCall, TableCall};
use crate::chains::{chain, heads_in, next_in};
use crate::keys::{are_apart, grain_key};
use crate::marks::{had_in, mark};
use crate::misfits::{cite_row, is_possible_in};
use vc_plan::{Atom, Binding, Plan, View, count_of};
use vc_plan_values::grains::domain_of;
use vc_rule_table::grains::has_grain;
use vc_rule_table::notes::{behind, first_note, note_at};
use vc_rule_yield::Yield;
use vc_rule_yield::scratch::{Marks, Note};
use vc_value::{Domain, Listed, Value};

// Whether the row has the grain, and is possible in the other columns.
fn brings<V: View>(call: &TableCall<V>, grain: usize, row: &[Value], note: Option<Note>) -> bool
    requires few { FewGrains call.now.plan.now }
    requires noted { HasNote call.now.plan.now (V.seen call.now.view.now) call.now.columns.now row.now note }
    ensures { result ≡ (has call.now grain row.now && is_possible V.seen call.now row.now) }
{
    has_grain(call.plan, call.var, call.columns, grain, row)
        && is_possible_in(
            call.plan,
            call.view,
            call.columns,
            Some(call.var),
            row,
            note,
        )
}

fn some_row_brings<V: View>(call: &TableCall<V>, grain: usize) -> bool
    requires call { IsCall V.seen call.now }
    ensures { result ≡ list_any (has call.now grain) (possible_rows V.seen call.now) }
{
    let mut rest = call.rows;
    let mut noted = call.notes;
    while let [row, more @ ..] = rest {
        if brings(call, grain, row.as_slice(), first_note(noted)) {
            return true;
        }
        rest = more;
        noted = behind(noted);
    }
    false
}

// Cites why the row isn't possible, if it has the grain.
fn cite_row_with<V: View>(
    call: &TableCall<V>,
    grain: usize,
    row: &[Value],
    note: Option<Note>,
    out: &mut Yield,
)
    requires few { FewGrains call.now.plan.now }
    requires noted { HasNote call.now.plan.now (V.seen call.now.view.now) call.now.columns.now row.now note }
    ensures { out.new ≡ cited_all out.old (reasons_of V.seen call.now (filter (has call.now grain) (row.now ∷ []))) }
{
    if has_grain(call.plan, call.var, call.columns, grain, row) {
        cite_row(
            call.plan,
            call.view,
            call.columns,
            Some(call.var),
            row,
            note,
            out,
        );
    }
}

fn cite_rows_with<V: View>(call: &TableCall<V>, grain: usize, out: &mut Yield)
    requires call { IsCall V.seen call.now }
    ensures { out.new ≡ cited_all out.old (reasons_of V.seen call.now (rows_with call.now grain)) }
{
    let mut rest = call.rows;
    let mut noted = call.notes;
    while let [row, more @ ..] = rest {
        cite_row_with(call, grain, row.as_slice(), first_note(noted), out);
        rest = more;
        noted = behind(noted);
    }
}

// Cites why the rows aren't possible that have the grain, along their chain.
fn cite_chain<V: View>(
    marked: &MarkedCall<V>,
    grain: usize,
    key: usize,
    heads: &[usize],
    next: &[usize],
    out: &mut Yield,
)
    requires call { IsMarkedCall V.seen marked.now }
    requires key { grain_key marked.now.call.now.domain.now grain ≡ Some key }
    requires inside { key < length heads.now }
    requires chains { AreChains marked.now.call.now.domain.now
        (columns_of marked.now.call.now.var marked.now.call.now.columns.now) marked.now.call.now.rows.now heads.now
        next.now }
    ensures { out.new ≡ cited_all out.old (reasons_of V.seen marked.now.call.now
        (rows_with marked.now.call.now grain)) }
{
    let mut at = heads[key];
    while let Some(row) = marked.call.rows.get(at) {
        let note = note_at(marked.call.notes, at);
        cite_row_with(marked.call, grain, row.as_slice(), note, out);
        at = next[at];
    }
}

// The rows along their chain where they are chained, else all rows.
fn cite_having<V: View>(marked: &MarkedCall<V>, grain: usize, out: &mut Yield)
    requires call { IsMarkedCall V.seen marked.now }
    ensures { out.new ≡ cited_all out.old (reasons_of V.seen marked.now.call.now
        (rows_with marked.now.call.now grain)) }
{
    let heads = heads_in(marked.marks);
    match grain_key(marked.call.domain, grain) {
        Some(key) if marked.chained && key < heads.len() => {
            cite_chain(marked, grain, key, heads, next_in(marked.marks), out)
        }
        _ => cite_rows_with(marked.call, grain, out),
    }
}

fn conclude_out<V: View>(marked: &MarkedCall<V>, grain: usize, out: &mut Yield)
    requires call { IsMarkedCall V.seen marked.now }
    requires fits { grain < 2 ^ 32 }
    ensures { out.new ≡ take_conclusions out.old (loses V.seen marked.now.call.now grain ∷ []) }
{
    let cited = out.cited_count();
    cite_having(marked, grain, out);
    out.conclude(Atom::Out(marked.call.var, grain as u32));
    out.keep_cited(cited);
}

fn mark_at(key: Option<usize>, had: &[bool]) -> Option<bool>
    ensures { result ≡ at_key key had.now }
{
    match key {
        Some(key) => match had.get(key) {
            Some(mark) => Some(*mark),
            None => None,
        },
        None => None,
    }
}

// Whether a row that is possible in the other columns has the grain: by its mark, if there is one.
fn is_had<V: View>(marked: &MarkedCall<V>, grain: usize) -> bool
    requires call { IsMarkedCall V.seen marked.now }
    ensures { result ≡ list_any (has marked.now.call.now grain) (possible_rows V.seen marked.now.call.now) }
{
    match mark_at(grain_key(marked.call.domain, grain), had_in(marked.marks)) {
        Some(mark) => mark,
        None => some_row_brings(marked.call, grain),
    }
}

// Whether no possible row has the grain, and it isn't out yet.
fn is_newly_missing<V: View>(marked: &MarkedCall<V>, grain: usize) -> bool
    requires call { IsMarkedCall V.seen marked.now }
    requires fits { grain < 2 ^ 32 }
    ensures { result ≡ is_new V.seen marked.now.call.now grain }
{
    !marked.call.view.out(marked.call.var, grain as u32) && !is_had(marked, grain)
}

fn some_newly_missing<V: View>(marked: &MarkedCall<V>) -> bool
    requires call { IsMarkedCall V.seen marked.now }
    ensures { result ≡ list_any (is_new V.seen marked.now.call.now)
        (numbers_below (count_of marked.now.call.now.plan.now marked.now.call.now.var)) }
{
    for grain in 0..count_of(marked.call.plan, marked.call.var) {
        if is_newly_missing(marked, grain) {
            return true;
        }
    }
    false
}

fn narrow_grain<V: View>(marked: &MarkedCall<V>, grain: usize, out: &mut Yield)
    requires call { IsMarkedCall V.seen marked.now }
    requires fits { grain < 2 ^ 32 }
    ensures { out.new ≡ take_conclusions out.old (narrowed V.seen marked.now.call.now (grain ∷ [])) }
{
    if is_newly_missing(marked, grain) {
        conclude_out(marked, grain, out);
    }
}

fn narrow_each<V: View>(marked: &MarkedCall<V>, out: &mut Yield)
    requires call { IsMarkedCall V.seen marked.now }
    ensures { out.new ≡ take_conclusions out.old (narrowed V.seen marked.now.call.now
        (numbers_below (count_of marked.now.call.now.plan.now marked.now.call.now.var))) }
{
    for grain in 0..count_of(marked.call.plan, marked.call.var) {
        narrow_grain(marked, grain, out);
    }
}

// Rows are chained only where something is newly missing.
fn narrow_domain<V: View>(call: &TableCall<V>, marks: &mut Option<Marks>, out: &mut Yield)
    requires call { IsCall V.seen call.now }
    requires domain { domain_of call.now.plan.now (slice_get call.now.plan.now.vars call.now.var)
        ≡ Some call.now.domain.now }
    requires given { IsTrue (has_column call.now.columns.now call.now.var) }
    ensures { out.new ≡ take_conclusions out.old (narrowed V.seen call.now
        (numbers_below (count_of call.now.plan.now call.now.var))) }
{
    are_apart(call.domain);
    mark(
        call.plan,
        call.view,
        call.columns,
        call.var,
        call.domain,
        call.rows,
        call.notes,
        marks,
    );
    let marked = MarkedCall {
        call: &*call,
        marks,
        chained: false,
    };
    if some_newly_missing(&marked) {
        let chained = chain(call.domain, call.columns, call.var, call.rows, marks);
        let marked = MarkedCall {
            call: &*call,
            marks,
            chained,
        };
        narrow_each(&marked, out);
    }
}

/// Concludes that the grains of the variable are out that no possible row has.
pub fn narrow_grains<V: View>(
    plan: &Plan,
    view: &V,
    columns: &[Binding],
    var: u32,
    rows: &[Listed<Value>],
    notes: &[Note],
    marks: &mut Option<Marks>,
    out: &mut Yield,
)
    requires few { FewGrains plan.now }
    requires noted { AreNotes plan.now (V.seen view.now) columns.now rows.now notes.now }
    requires given { IsTrue (has_column columns.now var) }
    ensures { out.new ≡ take_conclusions out.old (new_conclusions (V.seen view.now)
        (map (grain_out plan.now (V.seen view.now) rows.now columns.now var)
        (missing_grains plan.now var (columns_of var columns.now)
        (filter (is_possible_in plan.now (V.seen view.now) (other_columns var columns.now)) rows.now)))) }
{
    if let Some(domain) = domain_of(plan, var) {
        let call = TableCall {
            plan,
            view,
            columns,
            var,
            domain,
            rows,
            notes,
        };
        narrow_domain(&call, marks, out);
    }
}
