//! The domains of a plan: the characteristics' lists, cut at the numbers of all used dependencies.

ghost use Rattle.std.specs.Prelude.{◌≡◌, ◌++◌, List, flat_map, option_copied, slice_get, IfOk, OnOk};
ghost use Rattle.vc_types.specs.Occurrences as occurrences;
ghost use Rattle.vc_types_meanings.specs.Borrowed.{tree_of};
ghost use Rattle.vc_types_meanings.specs.Seen.{seen};
ghost use Rattle.vc_types_occurrences.specs.Seen.{calls_seen, conditions_seen};
ghost use Rattle.vc_compile_plan.specs.Cuts as cuts;
ghost use Rattle.vc_compile_plan.specs.Layouts.{layout_over};
ghost use Rattle.vc_compile_plan.specs.Layouts as layouts;
ghost use Rattle.vc_compile_plan.specs.declared.standings.Standing.{Standing};
ghost use Rattle.vc_compile_cuts.specs.Cutting.{cut_from, domains_seen, marks_of_all};
ghost use Rattle.vc_compile_cuts.specs.Marks.{marks_seen};
ghost use Rattle.vc_compile_cuts.specs.Rows.{Numbers};

use crate::cutting::{Cutting, cut_by_marks, cut_domains, uncut_domains};
use crate::marks::{Mark, put_relations, put_restrictions};
use crate::tables::{TableRows, put_calls};
use std::alloc::{AllocError, Global};
use vc_compile_uses::used_dependencies;
use vc_model_parts::{Model, NamedDependency};
use vc_plan::Slot;
use vc_syntax_tree::{Condition, TableCall};
use vc_table::VariantTable;
use vc_types::{At, Place};
use vc_types_meanings::{Setting, Tree, borrowed};
use vc_types_names::Names;
use vc_types_names::named::places;
use vc_types_occurrences::gathering::{gather_parts, put_all_relations, put_demanded};
use vc_value::{Domain, Listed};

// Puts the numbers at which conditions cut.
fn put_conditions(
    alloc: Global,
    out: &mut Listed<Mark>,
    setting: &Setting,
    conditions: &[&Condition],
) -> Result<(), AllocError>
    ensures { OnOk result (marks_seen out.new ≡ marks_seen out.old
        ++ flat_map (cuts.relation_marks (seen setting.now).model (seen setting.now).variables)
        (flat_map occurrences.relations_of (conditions_seen conditions.now))) }
{
    let mut relations = Listed::new(alloc);
    put_all_relations(&mut relations, conditions)?;
    put_relations(out, setting, relations.as_slice())
}

// Puts the numbers at which the restrictions of a constraint cut.
fn put_demands(
    alloc: Global,
    out: &mut Listed<Mark>,
    setting: &Setting,
    tree: Tree,
) -> Result<(), AllocError>
    ensures { OnOk result (marks_seen out.new ≡ marks_seen out.old
        ++ flat_map (cuts.restriction_marks (seen setting.now).model (seen setting.now).variables)
        (occurrences.demanded_relations (tree_of tree.entry))) }
{
    let mut relations = Listed::new(alloc);
    put_demanded(&mut relations, tree)?;
    put_restrictions(alloc, out, setting, relations.as_slice())
}

// Puts the numbers at which the tables of a constraint cut.
fn put_constraint_calls(
    out: &mut Listed<Mark>,
    setting: &Setting,
    rows: &TableRows,
    tree: Tree,
    calls: &[&TableCall],
) -> Result<(), AllocError>
    requires numbers { Numbers (rows.now).numbers.now (seen setting.now).model }
    requires calls { calls_seen calls.now ≡ occurrences.calls_in (tree_of tree) }
    ensures { OnOk result (marks_seen out.new ≡ marks_seen out.old
        ++ flat_map (cuts.call_marks (seen setting.now).model (rows.now).tables.now (seen setting.now).variables)
        (cuts.constraint_calls (tree_of tree.entry))) }
{
    match tree {
        Tree::Constraint(_) => put_calls(out, setting, rows, calls),
        _ => Ok(()),
    }
}

// The numbers at which a dependency cuts.
fn dependency_marks(
    alloc: Global,
    names: &Names,
    rows: &TableRows,
    tree: Tree,
) -> Result<Listed<Mark>, AllocError>
    requires { Numbers (rows.now).numbers.now names.now.model.now }
    ensures { IfOk result (λ marks. marks_seen marks
        ≡ cuts.dependency_marks names.now.model.now (rows.now).tables.now (tree_of tree.entry)) }
{
    let place = Place {
        object: 0,
        parent: None,
        at: At::Constraint,
    };
    let setting = Setting::new(alloc, names, place, tree)?;
    let parts = gather_parts(alloc, tree)?;
    let mut marks = Listed::new(alloc);
    put_conditions(alloc, &mut marks, &setting, parts.conditions.as_slice())?;
    put_demands(alloc, &mut marks, &setting, tree)?;
    put_constraint_calls(&mut marks, &setting, rows, tree, parts.calls.as_slice())?;
    Ok(marks)
}

fn dependency(model: &Model, number: u32) -> Option<&NamedDependency>
    ensures { option_copied result ≡ slice_get (model.now).dependencies number }
{
    model.dependencies.as_slice().get(number as usize)
}

fn cut_by_dependency(
    alloc: Global,
    all: &mut Vec<Cutting>,
    names: &Names,
    rows: &TableRows,
    number: u32,
) -> Result<(), AllocError>
    requires { Numbers (rows.now).numbers.now names.now.model.now }
    ensures { OnOk result (domains_seen all.new.items
        ≡ cut_from (cuts.marks_if names.now.model.now (rows.now).tables.now
        (layouts.tree_of names.now.model.now number)) 0 (domains_seen all.old.items)) }
{
    match dependency(names.model(), number) {
        Some(named) => {
            let marks = dependency_marks(alloc, names, rows, borrowed(&named.tree))?;
            cut_by_marks(alloc, all, marks.as_slice())
        }
        None => Ok(()),
    }
}

fn cut_by_dependencies(
    alloc: Global,
    all: &mut Vec<Cutting>,
    names: &Names,
    rows: &TableRows,
    numbers: &[u32],
) -> Result<(), AllocError>
    requires { Numbers (rows.now).numbers.now names.now.model.now }
    ensures { OnOk result (domains_seen all.new.items
        ≡ cut_from (marks_of_all names.now.model.now (rows.now).tables.now numbers.now) 0
        (domains_seen all.old.items)) }
{
    for number in numbers {
        cut_by_dependency(alloc, all, names, rows, *number)?;
    }
    Ok(())
}

/// The domain of each characteristic: its list, cut at the numbers of all used dependencies, so that
/// no grain of it is told apart by any of them.
pub fn domains_of(
    alloc: Global,
    names: &Names,
    slots: &[Slot],
    tables: &[VariantTable],
) -> Result<Listed<Domain>, AllocError>
    ensures { IfOk result (λ domains. (standings : List Standing)
        → domains ≡ cuts.domains_of (layout_over names.now.model.now standings slots.now) tables.now) }
{
    let model = names.model();
    let used = used_dependencies(alloc, model, slots)?;
    let numbers = places(alloc, model.tables.as_slice())?;
    let rows = TableRows {
        tables,
        numbers: &numbers,
    };
    let mut all = uncut_domains(alloc, model.characteristics.as_slice())?;
    cut_by_dependencies(alloc, &mut all, names, &rows, used.as_slice())?;
    cut_domains(alloc, all.as_slice())
}
