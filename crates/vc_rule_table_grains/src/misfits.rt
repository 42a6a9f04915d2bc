//! In which columns rows aren't possible, by their notes where there are some, and why.

ghost use Rattle.std.specs.Prelude.{◌≡◌};
ghost use Rattle.vc_plan.specs.TableRows.{is_possible_in};
ghost use Rattle.vc_rule_premises.specs.Citing.{cited_all};
ghost use Rattle.vc_rule_table.specs.Cells.{FewGrains, columns_but};
ghost use Rattle.vc_rule_table.specs.Noting.{AreNotes, HasNote};
ghost use Rattle.vc_rule_table.specs.Reasons.{first_misfit, row_reasons, rows_reasons};

use vc_plan::{Binding, Plan, View};
use vc_rule_table::cells::cite_operand;
use vc_rule_table::notes::{behind, first_note, is_possible_noted, misfit_noted};
use vc_rule_table::rows::{cell, first_misfit};
use vc_rule_yield::Yield;
use vc_rule_yield::scratch::Note;
use vc_value::{Listed, Value};

// The first column in which the row isn't possible, but for those of a variable, if one is named.
fn misfit<V: View>(
    plan: &Plan,
    view: &V,
    columns: &[Binding],
    but: Option<u32>,
    row: &[Value],
    note: Option<Note>,
) -> Option<Binding>
    requires few { FewGrains plan.now }
    requires noted { HasNote plan.now (V.seen view.now) columns.now row.now note }
    ensures { result ≡ first_misfit plan.now (V.seen view.now) (columns_but but columns.now) row.now }
{
    match note {
        Some(note) => misfit_noted(columns, but, note),
        None => first_misfit(plan, view, columns, but, row),
    }
}

fn is_possible_by_cells<V: View>(
    plan: &Plan,
    view: &V,
    columns: &[Binding],
    but: Option<u32>,
    row: &[Value],
) -> bool
    requires few { FewGrains plan.now }
    ensures { result ≡ is_possible_in plan.now (V.seen view.now) (columns_but but columns.now) row.now }
{
    first_misfit(plan, view, columns, but, row).is_none()
}

/// Whether the row is possible in all columns, but for those of a variable, if one is named.
pub fn is_possible_in<V: View>(
    plan: &Plan,
    view: &V,
    columns: &[Binding],
    but: Option<u32>,
    row: &[Value],
    note: Option<Note>,
) -> bool
    requires few { FewGrains plan.now }
    requires noted { HasNote plan.now (V.seen view.now) columns.now row.now note }
    ensures { result ≡ is_possible_in plan.now (V.seen view.now) (columns_but but columns.now) row.now }
{
    match note {
        Some(note) => is_possible_noted(columns, but, note),
        None => is_possible_by_cells(plan, view, columns, but, row),
    }
}

/// Cites why the row isn't possible, if it isn't.
pub fn cite_row<V: View>(
    plan: &Plan,
    view: &V,
    columns: &[Binding],
    but: Option<u32>,
    row: &[Value],
    note: Option<Note>,
    out: &mut Yield,
)
    requires few { FewGrains plan.now }
    requires noted { HasNote plan.now (V.seen view.now) columns.now row.now note }
    ensures { out.new ≡ cited_all out.old (row_reasons plan.now (V.seen view.now) (columns_but but columns.now)
        row.now) }
{
    if let Some(column) = misfit(plan, view, columns, but, row, note) {
        cite_operand(plan, view, column.operand, cell(row, column), out);
    }
}

/// Cites why those of the rows aren't possible that aren't.
pub fn cite_rows<V: View>(
    plan: &Plan,
    view: &V,
    columns: &[Binding],
    but: Option<u32>,
    rows: &[Listed<Value>],
    notes: &[Note],
    out: &mut Yield,
)
    requires few { FewGrains plan.now }
    requires noted { AreNotes plan.now (V.seen view.now) columns.now rows.now notes.now }
    ensures { out.new ≡ cited_all out.old (rows_reasons plan.now (V.seen view.now) (columns_but but columns.now)
        rows.now) }
{
    let mut rest = rows;
    let mut noted = notes;
    while let [row, more @ ..] = rest {
        cite_row(
            plan,
            view,
            columns,
            but,
            row.as_slice(),
            first_note(noted),
            out,
        );
        rest = more;
        noted = behind(noted);
    }
}
