//! Notes of rows, column by column: a row is given up at its second misfit of another variable.

ghost use Rattle.std.specs.Prelude.{◌≡◌, is_none, length, drop, slice_get, Some};
ghost use Rattle.vc_rule_yield.specs.declared.scratch.Note.{Note};
ghost use Rattle.vc_rule_table.specs.Cells.{FewGrains};
ghost use Rattle.vc_rule_table.specs.Noting.{AreNotes, changed, changed_by, each_changed, is_apart, next_note};
ghost use Rattle.vc_rule_table.specs.Noting.{no_misfit, noted_in, noted_misfit, with_misfit};
ghost use Rattle.vc_rule_table.specs.NotingColumns.{IsNoting, is_fitting, noted_next};

use crate::fitting::{Test, passes, tell_left, test_of};
use crate::rows::{cell, is_column_of, is_given};
use vc_plan::{Binding, Operand, Plan, View};
use vc_rule_yield::scratch::{Note, Notes};
use vc_value::{Listed, Value};

fn column_at(columns: &[Binding], place: usize) -> Option<Binding>
    ensures { result ≡ slice_get columns.now place }
{
    match columns.get(place) {
        Some(column) => Some(*column),
        None => None,
    }
}

fn is_apart(operand: Operand, column: Binding) -> bool
    ensures { result ≡ is_apart operand column }
{
    match operand {
        Operand::Constant(_) => true,
        Operand::Variable(var) => !is_column_of(var, column),
    }
}

fn with_misfit(place: usize, column: Binding, note: Note, first: Option<Binding>) -> Note
    ensures { result ≡ with_misfit place column note first }
{
    match first {
        Some(first) => {
            if is_apart(first.operand, column) {
                Note {
                    first: note.first,
                    second: place,
                }
            } else {
                note
            }
        }
        None => Note {
            first: place,
            second: if is_apart(column.operand, column) {
                place
            } else {
                note.second
            },
        },
    }
}

/// A column that is noted: what is seen, its place among all, and the test that its cells pass.
#[derive(Drop)]
struct NotedColumn<'a, V> {
    plan: &'a Plan,
    view: &'a V,
    columns: &'a [Binding],
    place: usize,
    column: Binding,
    test: Test,
    left: &'a [u32],
}

fn is_fitting<V: View>(noting: &NotedColumn<V>, row: &[Value]) -> bool
    requires { IsNoting V.seen noting.now }
    ensures { result ≡ is_fitting V.seen noting.now row.now }
{
    match cell(row, noting.column) {
        Some(value) => passes(noting.plan, noting.view, noting.test, noting.left, value),
        None => false,
    }
}

// The note with the column at this place.
fn note_more<V: View>(noting: &NotedColumn<V>, row: &[Value], note: Note) -> Note
    requires { IsNoting V.seen noting.now }
    ensures { result ≡ noted_next V.seen noting.now row.now note }
{
    if note.second < noting.columns.len() || is_fitting(noting, row) {
        note
    } else {
        with_misfit(
            noting.place,
            noting.column,
            note,
            column_at(noting.columns, note.first),
        )
    }
}

/// The note at the place, if there is one.
pub fn note_at(notes: &[Note], at: usize) -> Option<Note>
    ensures { result ≡ slice_get notes.now at }
{
    match notes.get(at) {
        Some(note) => Some(*note),
        None => None,
    }
}

#[tactic(auto, using(crate::proofs::ChangingLemmas::changing))]
fn note_row<V: View>(noting: &NotedColumn<V>, row: &[Value], at: usize, notes: &mut Listed<Note>)
    requires { IsNoting V.seen noting.now }
    ensures { notes.new ≡ changed (noted_next V.seen noting.now row.now) at notes.old }
{
    if let Some(note) = note_at(notes.as_slice(), at) {
        let next = note_more(noting, row, note);
        notes.set(at, next);
    }
}

fn note_row_at<V: View>(
    noting: &NotedColumn<V>,
    rows: &[Listed<Value>],
    at: usize,
    notes: &mut Listed<Note>,
)
    requires { IsNoting V.seen noting.now }
    ensures { notes.new ≡ changed_by (noted_next V.seen noting.now) (slice_get rows.now at) at notes.old }
{
    if let Some(row) = rows.get(at) {
        note_row(noting, row.as_slice(), at, notes);
    }
}

fn note_in_rows<V: View>(noting: &NotedColumn<V>, rows: &[Listed<Value>], notes: &mut Listed<Note>)
    requires { IsNoting V.seen noting.now }
    ensures { notes.new ≡ each_changed (noted_next V.seen noting.now) rows.now notes.old }
{
    for at in 0..rows.len() {
        note_row_at(noting, rows, at, notes);
    }
}

// Notes the column at this place in all rows.
fn note_column<V: View>(
    plan: &Plan,
    view: &V,
    columns: &[Binding],
    place: usize,
    column: Binding,
    rows: &[Listed<Value>],
    notes: &mut Notes,
)
    requires few { FewGrains plan.now }
    ensures { notes.new.rows ≡ each_changed (next_note plan.now (V.seen view.now) columns.now place column) rows.now
        notes.old.rows }
{
    let test = test_of(plan, view, column.operand);
    tell_left(plan, view, test, &mut notes.left);
    let noting = NotedColumn {
        plan,
        view,
        columns,
        place,
        column,
        test,
        left: notes.left.as_slice(),
    };
    note_in_rows(&noting, rows, &mut notes.rows);
}

#[tactic(auto, using(crate::proofs::ChangingLemmas::changing))]
fn clear_note(none: Note, at: usize, notes: &mut Listed<Note>)
    ensures { notes.new ≡ changed (λ note. none) at notes.old }
{
    if at < notes.len() {
        notes.set(at, none);
    }
}

fn clear_notes(columns: &[Binding], rows: &[Listed<Value>], notes: &mut Listed<Note>)
    ensures { notes.new ≡ each_changed (λ row note. no_misfit columns.now) rows.now notes.old }
{
    let none = Note {
        first: columns.len(),
        second: columns.len(),
    };
    for at in 0..rows.len() {
        clear_note(none, at, notes);
    }
}

fn note_columns<V: View>(
    plan: &Plan,
    view: &V,
    columns: &[Binding],
    rows: &[Listed<Value>],
    notes: &mut Notes,
)
    requires few { FewGrains plan.now }
    ensures { AreNotes plan.now (V.seen view.now) columns.now rows.now notes.new.rows }
{
    clear_notes(columns, rows, &mut notes.rows);
    for place in 0..columns.len() {
        note_column(plan, view, columns, place, columns[place], rows, notes);
    }
}

/// Notes where the rows aren't possible, of as many as there is room for.
pub fn note_rows<V: View>(
    plan: &Plan,
    view: &V,
    columns: &[Binding],
    rows: &[Listed<Value>],
    notes: &mut Option<Notes>,
)
    requires few { FewGrains plan.now }
    ensures { AreNotes plan.now (V.seen view.now) columns.now rows.now (noted_in notes.new) }
{
    if let Some(notes) = notes {
        note_columns(plan, view, columns, rows, notes);
    }
}

/// The notes that there are.
pub fn noted(notes: &Option<Notes>) -> &[Note]
    ensures { result.now ≡ noted_in notes.now }
{
    match notes {
        Some(notes) => notes.rows.as_slice(),
        None => &[],
    }
}

/// The first note, and those behind it.
pub fn first_note(notes: &[Note]) -> Option<Note>
    ensures { result ≡ slice_get notes.now 0 }
{
    note_at(notes, 0)
}

pub fn behind(notes: &[Note]) -> &[Note]
    ensures { result.now ≡ drop 1 notes.now }
{
    match notes {
        [_, more @ ..] => more,
        [] => notes,
    }
}

/// The first misfit by the note, but for those of a variable, if one is named.
pub fn misfit_noted(columns: &[Binding], but: Option<u32>, note: Note) -> Option<Binding>
    ensures { result ≡ noted_misfit but (slice_get columns.now note.first) (slice_get columns.now note.second) }
{
    match column_at(columns, note.first) {
        Some(first) => {
            if is_given(but, first) {
                column_at(columns, note.second)
            } else {
                Some(first)
            }
        }
        None => None,
    }
}

/// Whether there is none.
pub fn is_possible_noted(columns: &[Binding], but: Option<u32>, note: Note) -> bool
    ensures { result ≡ is_none (noted_misfit but (slice_get columns.now note.first)
        (slice_get columns.now note.second)) }
{
    match columns.get(note.first) {
        Some(first) => is_given(but, *first) && columns.get(note.second).is_none(),
        None => true,
    }
}
