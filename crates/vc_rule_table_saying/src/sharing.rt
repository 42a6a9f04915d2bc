//! Why rows aren't possible is cited once for all variables at whose columns no row fails first.

ghost use Rattle.std.specs.Prelude.{◌≡◌, ◌≤◌, ◌∷◌, [], IsTrue, true, false, length};
ghost use Rattle.std.specs.List.{list_any};
ghost use Rattle.vc_plan.specs.declared.atoms.Atom.TheVariants.{Is};
ghost use Rattle.vc_rule_premises.specs.Citing.{cited_all};
ghost use Rattle.vc_rule_premises.specs.Saying.{take_conclusions};
ghost use Rattle.vc_rule_table_saying.specs.Calls.{IsNoted, agreement, reasons_of};
ghost use Rattle.vc_rule_table_saying.specs.Sharing.{IsCiting, fails_first, kept, shares};

use crate::calls::NotedCall;
use vc_plan::{Atom, Binding, View};
use vc_rule_table::rows::is_column_of;
use vc_rule_table_grains::misfits::cite_rows;
use vc_rule_yield::Yield;
use vc_rule_yield::scratch::Note;
use vc_value::Value;

// Whether the row of the note fails first at a column of the variable.
fn fails_first(columns: &[Binding], var: u32, note: Note) -> bool
    ensures { result ≡ fails_first columns.now var note }
{
    match columns.get(note.first) {
        Some(column) => is_column_of(var, *column),
        None => false,
    }
}

fn some_fails_first(columns: &[Binding], var: u32, notes: &[Note]) -> bool
    ensures { result ≡ list_any (fails_first columns.now var) notes.now }
{
    let mut rest = notes;
    while let [note, more @ ..] = rest {
        if fails_first(columns, var, *note) {
            return true;
        }
        rest = more;
    }
    false
}

// Whether none of so many rows does, as notes of all of them tell.
fn shares(columns: &[Binding], var: u32, count: usize, notes: &[Note]) -> bool
    ensures { result ≡ shares columns.now var count notes.now }
{
    count <= notes.len() && !some_fails_first(columns, var, &notes[..count])
}

/// Cites why those of the rows aren't possible that aren't.
pub fn cite_all<V: View>(call: &NotedCall<V>, out: &mut Yield)
    requires call { IsNoted V.seen call.now }
    ensures { out.new ≡ cited_all out.old (reasons_of V.seen call.now) }
{
    cite_rows(
        call.plan,
        call.view,
        call.columns,
        None,
        call.rows,
        call.notes,
        out,
    );
}

// Cites why rows aren't possible, if it isn't cited yet.
fn cite_once<V: View>(call: &NotedCall<V>, base: usize, shared: bool, out: &mut Yield)
    requires call { IsNoted V.seen call.now }
    requires citing { IsCiting base (reasons_of V.seen call.now) shared out.old }
    ensures { out.new ≡ cited_all (kept base out.old) (reasons_of V.seen call.now) }
{
    if !shared {
        cite_all(call, out);
    }
}

// Concludes that the variable has the value, from what is cited once.
fn conclude_shared<V: View>(
    call: &NotedCall<V>,
    var: u32,
    value: Value,
    base: usize,
    shared: bool,
    out: &mut Yield,
)
    requires call { IsNoted V.seen call.now }
    requires shares { IsTrue (shares call.now.columns.now var (length call.now.rows.now) call.now.notes.now) }
    requires citing { IsCiting base (reasons_of V.seen call.now) shared out.old }
    ensures takes { kept base out.new ≡ take_conclusions (kept base out.old)
        (agreement V.seen call.now var (Is var value) ∷ []) }
    ensures citing { IsCiting base (reasons_of V.seen call.now) true out.new }
{
    cite_once(call, base, shared, out);
    out.conclude(Atom::Is(var, value));
}

fn conclude_cited<V: View>(call: &NotedCall<V>, var: u32, value: Value, out: &mut Yield)
    requires call { IsNoted V.seen call.now }
    ensures { out.new ≡ take_conclusions out.old (agreement V.seen call.now var (Is var value) ∷ []) }
{
    let cited = out.cited_count();
    cite_rows(
        call.plan,
        call.view,
        call.columns,
        Some(var),
        call.rows,
        call.notes,
        out,
    );
    out.conclude(Atom::Is(var, value));
    out.keep_cited(cited);
}

// Concludes that the variable has the value, from what is cited for it alone.
fn conclude_alone<V: View>(
    call: &NotedCall<V>,
    var: u32,
    value: Value,
    base: usize,
    out: &mut Yield,
)
    requires call { IsNoted V.seen call.now }
    requires stands { base ≤ length out.old.cites }
    ensures takes { kept base out.new ≡ take_conclusions (kept base out.old)
        (agreement V.seen call.now var (Is var value) ∷ []) }
    ensures citing { IsCiting base (reasons_of V.seen call.now) false out.new }
{
    out.keep_cited(base);
    conclude_cited(call, var, value, out);
}

/// Concludes that the variable has the value, where why rows aren't possible may be cited already, behind so many
/// premises; whether it is afterwards.
pub fn conclude_is<V: View>(
    call: &NotedCall<V>,
    var: u32,
    value: Value,
    base: usize,
    shared: bool,
    out: &mut Yield,
) -> bool
    requires call { IsNoted V.seen call.now }
    requires citing { IsCiting base (reasons_of V.seen call.now) shared out.old }
    ensures takes { kept base out.new ≡ take_conclusions (kept base out.old)
        (agreement V.seen call.now var (Is var value) ∷ []) }
    ensures citing { IsCiting base (reasons_of V.seen call.now) result out.new }
{
    if shares(call.columns, var, call.rows.len(), call.notes) {
        conclude_shared(call, var, value, base, shared, out);
        true
    } else {
        conclude_alone(call, var, value, base, out);
        false
    }
}
