//! Rows that are given up are possible but for no variable: walks go past them by their notes alone.

ghost use Rattle.std.specs.Prelude.{◌≡◌, drop};
ghost use Rattle.vc_rule_table_saying.specs.Skipping.{given_up, is_given_up};

use vc_plan::Binding;
use vc_rule_yield::scratch::Note;
use vc_value::{Listed, Value};

fn is_given_up(columns: &[Binding], note: Note) -> bool
    ensures { result ≡ is_given_up columns.now note }
{
    note.second < columns.len()
}

/// How many are given up before the first that isn't.
pub fn given_up(columns: &[Binding], notes: &[Note]) -> usize
    ensures { result ≡ given_up columns.now notes.now }
{
    let mut rest = notes;
    let mut count = 0;
    while let [note, more @ ..] = rest {
        if !is_given_up(columns, *note) {
            return count;
        }
        count += 1;
        rest = more;
    }
    count
}

/// The rows behind so many, and the notes.
pub fn rows_past(rows: &[Listed<Value>], count: usize) -> &[Listed<Value>]
    ensures { result.now ≡ drop count rows.now }
{
    if count < rows.len() {
        &rows[count..]
    } else {
        &[]
    }
}

pub fn notes_past(notes: &[Note], count: usize) -> &[Note]
    ensures { result.now ≡ drop count notes.now }
{
    if count < notes.len() {
        &notes[count..]
    } else {
        &[]
    }
}
