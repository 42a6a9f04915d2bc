//! Which keys possible rows have.

ghost use Rattle.std.specs.Prelude.{◌≡◌, true, false, length, Some};
ghost use Rattle.vc_plan.specs.Domains.{grains_in};
ghost use Rattle.vc_plan.specs.TableRows.{columns_of, is_possible_in, other_columns};
ghost use Rattle.vc_rule_table.specs.Cells.{FewGrains};
ghost use Rattle.vc_rule_table.specs.Noting.{AreNotes, HasNote};
ghost use Rattle.vc_rule_table_grains.specs.Keys.{row_key};
ghost use Rattle.vc_rule_table_grains.specs.Marking.{AreAt, AreMarks, had_in, marked_by, put_at};

use crate::keys::{grain_key, row_key};
use crate::misfits::is_possible_in;
use vc_plan::{Binding, Plan, View};
use vc_rule_table::cells::grain_count;
use vc_rule_table::notes::{behind, first_note};
use vc_rule_yield::scratch::{Marks, Note};
use vc_value::{Domain, Listed, Value};

fn set_mark(key: Option<usize>, mark: bool, had: &mut Listed<bool>)
    ensures { had.new ≡ put_at key mark had.old }
{
    if let Some(key) = key {
        if key < had.len() {
            had.set(key, mark);
        }
    }
}

fn clear_marks(domain: &Domain, had: &mut Listed<bool>)
    ensures { AreAt domain.now (length (grains_in (Some domain.now))) false had.new }
{
    for grain in 0..grain_count(domain) {
        set_mark(grain_key(domain, grain), false, had);
    }
}

fn mark_row<V: View>(
    plan: &Plan,
    view: &V,
    columns: &[Binding],
    var: u32,
    domain: &Domain,
    row: &[Value],
    note: Option<Note>,
    had: &mut Listed<bool>,
)
    requires few { FewGrains plan.now }
    requires noted { HasNote plan.now (V.seen view.now) columns.now row.now note }
    ensures { had.new ≡ marked_by
        (is_possible_in plan.now (V.seen view.now) (other_columns var columns.now) row.now)
        (row_key domain.now (columns_of var columns.now) row.now) had.old }
{
    if is_possible_in(plan, view, columns, Some(var), row, note) {
        set_mark(row_key(domain, columns, var, row), true, had);
    }
}

fn mark_rows<V: View>(
    plan: &Plan,
    view: &V,
    columns: &[Binding],
    var: u32,
    domain: &Domain,
    rows: &[Listed<Value>],
    notes: &[Note],
    had: &mut Listed<bool>,
)
    requires few { FewGrains plan.now }
    requires noted { AreNotes plan.now (V.seen view.now) columns.now rows.now notes.now }
    requires cleared { AreAt domain.now (length (grains_in (Some domain.now))) false had.old }
    ensures { AreMarks domain.now (columns_of var columns.now)
        (is_possible_in plan.now (V.seen view.now) (other_columns var columns.now)) rows.now had.new }
{
    let mut rest = rows;
    let mut noted = notes;
    while let [row, more @ ..] = rest {
        mark_row(
            plan,
            view,
            columns,
            var,
            domain,
            row.as_slice(),
            first_note(noted),
            had,
        );
        rest = more;
        noted = behind(noted);
    }
}

/// Marks the keys of the rows that are possible in the other columns.
pub fn mark<V: View>(
    plan: &Plan,
    view: &V,
    columns: &[Binding],
    var: u32,
    domain: &Domain,
    rows: &[Listed<Value>],
    notes: &[Note],
    marks: &mut Option<Marks>,
)
    requires few { FewGrains plan.now }
    requires noted { AreNotes plan.now (V.seen view.now) columns.now rows.now notes.now }
    ensures { AreMarks domain.now (columns_of var columns.now)
        (is_possible_in plan.now (V.seen view.now) (other_columns var columns.now)) rows.now (had_in marks.new) }
{
    if let Some(marks) = marks {
        clear_marks(domain, &mut marks.had);
        mark_rows(
            plan,
            view,
            columns,
            var,
            domain,
            rows,
            notes,
            &mut marks.had,
        );
    }
}

/// The marks that there are.
pub fn had_in(marks: &Option<Marks>) -> &[bool]
    ensures { result.now ≡ had_in marks.now }
{
    match marks {
        Some(marks) => marks.had.as_slice(),
        None => &[],
    }
}
