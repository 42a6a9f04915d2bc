//! What statements do.

ghost use Rattle.std.specs.Prelude.{◌≡◌, ◌∷◌, [], length, map, flat_map, IfOk, OnOk};
ghost use Rattle.vc_syntax_tree.specs.Trees as syntax;
ghost use Rattle.vc_types.specs.Looking.{column_in, table_named};
ghost use Rattle.vc_types.specs.PlaceFaults.{is_key};
ghost use Rattle.vc_compile_plan.specs.Procedures as procedures;
ghost use Rattle.vc_compile_plan.specs.Sites.{characteristic_in};
ghost use Rattle.vc_compile_plan.specs.Terms as compiled;
ghost use Rattle.vc_compile_numbering.specs.Growing.{kept, with_terms};
ghost use Rattle.vc_compile_layout.specs.Standing.{layout_seen};
ghost use Rattle.vc_compile_sites.specs.Standing.{site_seen};
ghost use Rattle.vc_compile_procedures.specs.Doing.{AreKeys, IsDone};

use std::alloc::{AllocError, Global};
use vc_compile_layout::Layout;
use vc_compile_numbering::Trees;
use vc_compile_sites::{Site, term_at};
use vc_plan::{Action, FilledColumn, KeyTerm};
use vc_syntax_tree::{Action as Act, Binding, NameLeaf, Operand, TableCall, Term};
use vc_types::Meaning;
use vc_value::Listed;

fn characteristic_in(meaning: Meaning) -> u32
    ensures { result ≡ characteristic_in meaning }
{
    match meaning {
        Meaning::Characteristic(characteristic) => characteristic,
        _ => 0,
    }
}

// The variable that a statement writes: one of the instance itself.
fn target(layout: &Layout<'_, '_>, site: &Site<'_, '_, '_, '_>, name: &NameLeaf) -> u32
    ensures { result ≡ procedures.target (layout_seen layout.now) (site_seen site.now) name.now }
{
    let characteristic = characteristic_in(site.setting.own_meaning(name));
    layout.var_number(site.own, characteristic)
}

// Puts a term last, and answers its number.
fn add_term(
    alloc: Global,
    layout: &Layout<'_, '_>,
    site: &Site<'_, '_, '_, '_>,
    term: &Term,
    trees: &mut Trees,
) -> Result<u32, AllocError>
    ensures number { IfOk result (λ number. number ≡ length (kept trees.old).terms) }
    ensures kept { OnOk result (kept trees.new ≡ with_terms (kept trees.old)
        (compiled.term_at (layout_seen layout.now) (site_seen site.now) (syntax.term_of term.now) ∷ [])) }
{
    let term = term_at(alloc, layout, site, term)?;
    trees.add_term(term)
}

// Whether a column is a key of the table.
fn is_key(layout: &Layout<'_, '_>, table: &[u8], column: &[u8]) -> bool
    ensures { result ≡ is_key (column_in (layout_seen layout.now).model column.now
        (table_named (layout_seen layout.now).model table.now)) }
{
    let names = layout.names();
    match names.column_in(column, names.table(table)) {
        Some(column) => column.key,
        None => false,
    }
}

// The keys of a call, in its order, with what is looked up in each.
fn keys_at(
    alloc: Global,
    layout: &Layout<'_, '_>,
    site: &Site<'_, '_, '_, '_>,
    table: &[u8],
    bindings: &[Binding],
    trees: &mut Trees,
) -> Result<Listed<KeyTerm>, AllocError>
    ensures { IfOk result (λ keys. AreKeys (kept trees.old) (flat_map (procedures.key_of (layout_seen layout.now)
        (site_seen site.now) table.now) (map syntax.binding_of bindings.now)) keys (kept trees.new)) }
{
    let mut keys = Listed::new(alloc);
    for binding in bindings {
        let column = binding.column.name.bytes();
        if is_key(layout, table, column) {
            keys.push(KeyTerm {
                column: layout.column_number(table, column)?,
                term: add_term(alloc, layout, site, &binding.value, trees)?,
            })?;
        }
    }
    Ok(keys)
}

// The name of the characteristic that gets a column's cell: that of `$SELF`, or else the column's.
fn filled_name<'t>(term: &'t Term, column: &'t NameLeaf) -> &'t NameLeaf
    ensures { result.now ≡ procedures.operand_in (syntax.term_of term.now) column.now }
{
    match term {
        Term::Operand(Operand::Owned(_, name)) => name,
        _ => column,
    }
}

// The other columns of a call, in its order, with the variables that get their cells.
fn filled_at(
    alloc: Global,
    layout: &Layout<'_, '_>,
    site: &Site<'_, '_, '_, '_>,
    table: &[u8],
    bindings: &[Binding],
) -> Result<Listed<FilledColumn>, AllocError>
    ensures { IfOk result (λ filled. filled ≡ flat_map (procedures.filled_by (layout_seen layout.now)
        (site_seen site.now) table.now) (map syntax.binding_of bindings.now)) }
{
    let mut filled = Listed::new(alloc);
    for binding in bindings {
        let column = binding.column.name.bytes();
        if !is_key(layout, table, column) {
            filled.push(FilledColumn {
                column: layout.column_number(table, column)?,
                var: target(layout, site, filled_name(&binding.value, &binding.column)),
            })?;
        }
    }
    Ok(filled)
}

fn look_up_at(
    alloc: Global,
    layout: &Layout<'_, '_>,
    site: &Site<'_, '_, '_, '_>,
    call: &TableCall,
    trees: &mut Trees,
) -> Result<Action, AllocError>
    ensures { IfOk result (λ action. IsDone (kept trees.old) (procedures.action_at (layout_seen layout.now)
        (site_seen site.now) (syntax.Calls (syntax.table_call_of call.now))) action (kept trees.new)) }
{
    let table = call.table.name.bytes();
    let bindings = call.bindings.as_slice();
    let filled = filled_at(alloc, layout, site, table, bindings)?;
    let keys = keys_at(alloc, layout, site, table, bindings, trees)?;
    Ok(Action::LookUp {
        table: layout.table_number(table),
        keys,
        filled,
    })
}

/// What a statement does at the site. Its terms come behind the others.
pub fn action_at(
    alloc: Global,
    layout: &Layout<'_, '_>,
    site: &Site<'_, '_, '_, '_>,
    action: &Act,
    trees: &mut Trees,
) -> Result<Action, AllocError>
    ensures { IfOk result (λ done. IsDone (kept trees.old) (procedures.action_at (layout_seen layout.now)
        (site_seen site.now) (syntax.action_of action.now)) done (kept trees.new)) }
{
    match action {
        Act::Assign(name, term) => Ok(Action::Assign {
            var: target(layout, site, name),
            term: add_term(alloc, layout, site, term, trees)?,
        }),
        Act::SetDefault(name, term) => Ok(Action::SetDefault {
            var: target(layout, site, name),
            term: add_term(alloc, layout, site, term, trees)?,
        }),
        Act::DelDefault(name, term) => Ok(Action::DeleteDefault {
            var: target(layout, site, name),
            term: add_term(alloc, layout, site, term, trees)?,
        }),
        Act::Table(call) => look_up_at(alloc, layout, site, call.get(), trees),
    }
}
