//! What a table call of a constraint says.

ghost use Rattle.std.specs.Prelude.{◌≡◌, IsTrue, ◌^◌, ◌<◌, ◌≤◌, ◌∷◌, [], false, flat_map, length};
ghost use Rattle.std.specs.List.{filter, list_any};
ghost use Rattle.vc_plan.specs.Domains.{atom_count, is_restrictable};
ghost use Rattle.vc_plan.specs.TableRows.{is_possible_in};
ghost use Rattle.vc_rule_yield.specs.Yielding.{clashed};
ghost use Rattle.vc_rule_premises.specs.Citing.{cited_all};
ghost use Rattle.vc_rule_premises.specs.Saying.{take_conclusions, taken};
ghost use Rattle.vc_rule_table.specs.Cells.{FewGrains};
ghost use Rattle.vc_rule_table.specs.Noting.{HasNote};
ghost use Rattle.vc_rule_table.specs.TableSaid.{has_column, rows_said, table_said};
ghost use Rattle.vc_rule_table_saying.specs.Calls.{IsNoted, narrowed, newly, reasons_of};
ghost use Rattle.vc_rule_table_saying.specs.Sharing.{IsCiting, kept};

use crate::agreed::conclude_agreed;
use crate::calls::NotedCall;
use crate::sharing::cite_all;
use vc_plan::{Binding, Plan, Rule, View};
use vc_plan_values::is_restrictable;
use vc_rule_table::notes::{behind, first_note, note_rows, noted};
use vc_rule_table::rows::{has_column, rows_of};
use vc_rule_table_grains::grains::narrow_grains;
use vc_rule_table_grains::misfits::is_possible_in;
use vc_rule_yield::Yield;
use vc_rule_yield::scratch::{Marks, Note};
use vc_value::{Listed, Value};

// Whether the row is possible in all columns.
fn is_possible<V: View>(call: &NotedCall<V>, row: &[Value], note: Option<Note>) -> bool
    requires few { FewGrains call.now.plan.now }
    requires noted { HasNote call.now.plan.now (V.seen call.now.view.now) call.now.columns.now row.now note }
    ensures { result ≡ is_possible_in call.now.plan.now (V.seen call.now.view.now) call.now.columns.now row.now }
{
    is_possible_in(call.plan, call.view, call.columns, None, row, note)
}

fn some_row_is_possible<V: View>(call: &NotedCall<V>) -> bool
    requires call { IsNoted V.seen call.now }
    ensures { result ≡ list_any (is_possible_in call.now.plan.now (V.seen call.now.view.now) call.now.columns.now)
        call.now.rows.now }
{
    let mut rest = call.rows;
    let mut noted = call.notes;
    while let [row, more @ ..] = rest {
        if is_possible(call, row.as_slice(), first_note(noted)) {
            return true;
        }
        rest = more;
        noted = behind(noted);
    }
    false
}

// What follows for a restrictable variable, each from what is cited for it alone.
fn narrow_alone<V: View>(
    call: &NotedCall<V>,
    var: u32,
    marks: &mut Option<Marks>,
    base: usize,
    out: &mut Yield,
)
    requires call { IsNoted V.seen call.now }
    requires given { IsTrue (has_column call.now.columns.now var) }
    requires stands { base ≤ length out.old.cites }
    ensures takes { kept base out.new ≡ take_conclusions (kept base out.old) (narrowed V.seen call.now var) }
    ensures citing { IsCiting base (reasons_of V.seen call.now) false out.new }
{
    out.keep_cited(base);
    narrow_grains(
        call.plan,
        call.view,
        call.columns,
        var,
        call.rows,
        call.notes,
        marks,
        out,
    );
}

// What follows for the variable, if a column is given it; whether why rows aren't possible is cited afterwards.
fn narrow<V: View>(
    call: &NotedCall<V>,
    var: u32,
    marks: &mut Option<Marks>,
    base: usize,
    shared: bool,
    out: &mut Yield,
) -> bool
    requires call { IsNoted V.seen call.now }
    requires citing { IsCiting base (reasons_of V.seen call.now) shared out.old }
    ensures takes { kept base out.new ≡ take_conclusions (kept base out.old)
        (flat_map (newly V.seen call.now) (filter (has_column call.now.columns.now) (var ∷ []))) }
    ensures citing { IsCiting base (reasons_of V.seen call.now) result out.new }
{
    if !has_column(call.columns, var) {
        shared
    } else if is_restrictable(call.plan, var) {
        narrow_alone(call, var, marks, base, out);
        false
    } else {
        conclude_agreed(call, var, base, shared, out)
    }
}

fn narrow_all<V: View>(
    call: &NotedCall<V>,
    vars: &[u32],
    marks: &mut Option<Marks>,
    out: &mut Yield,
)
    requires call { IsNoted V.seen call.now }
    ensures { out.new ≡ take_conclusions out.old
        (flat_map (newly V.seen call.now) (filter (has_column call.now.columns.now) vars.now)) }
{
    let base = out.cited_count();
    let mut shared = false;
    let mut rest = vars;
    while let [var, more @ ..] = rest {
        shared = narrow(call, *var, marks, base, shared, out);
        rest = more;
    }
    out.keep_cited(base);
}

// Tells a clash, as no row is possible in all columns.
fn clash_by_rows<V: View>(call: &NotedCall<V>, out: &mut Yield)
    requires call { IsNoted V.seen call.now }
    ensures { out.new ≡ clashed (cited_all out.old (reasons_of V.seen call.now)) }
{
    cite_all(call, out);
    out.clash_now();
}

// What the rows say, by their notes.
fn say_noted<V: View>(call: &NotedCall<V>, rule: &Rule, marks: &mut Option<Marks>, out: &mut Yield)
    requires call { IsNoted V.seen call.now }
    ensures { out.new ≡ taken out.old (rows_said call.now.plan.now (V.seen call.now.view.now) rule.now
        call.now.rows.now call.now.columns.now) }
{
    if some_row_is_possible(call) {
        narrow_all(call, rule.inferred.as_slice(), marks, out);
    } else {
        clash_by_rows(call, out);
    }
}

// What the rows say.
fn say_rows<V: View>(
    plan: &Plan,
    view: &V,
    rule: &Rule,
    rows: &[Listed<Value>],
    columns: &[Binding],
    out: &mut Yield,
)
    requires few { FewGrains plan.now }
    ensures { out.new ≡ taken out.old (rows_said plan.now (V.seen view.now) rule.now rows.now columns.now) }
{
    let mut scratch = out.take_scratch();
    note_rows(plan, view, columns, rows, &mut scratch.notes);
    let call = NotedCall {
        plan,
        view,
        columns,
        rows,
        notes: noted(&scratch.notes),
    };
    say_noted(&call, rule, &mut scratch.marks, out);
    out.put_scratch(scratch);
}

/// Puts what the table call says into the yield: a clash where no row of the table is possible,
/// else what follows for each inferred variable, but for what stands already. What follows comes
/// with why the rows aren't possible that aren't: of each row by its first column that doesn't fit.
pub fn say_table<V: View>(
    plan: &Plan,
    view: &V,
    rule: &Rule,
    table: u32,
    columns: &[Binding],
    out: &mut Yield,
)
    requires { atom_count plan.now < 2 ^ 32 }
    ensures { out.new ≡ taken out.old (table_said plan.now (V.seen view.now) rule.now table columns.now) }
{
    say_rows(plan, view, rule, rows_of(plan, table), columns, out);
}
