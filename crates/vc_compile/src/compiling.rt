//! The plan of a model with its tables.

ghost use Rattle.std.specs.Prelude.{◌≡◌, List, IfOk, IfErr, None};
ghost use Rattle.vc_table.specs.declared.table.VariantTable.{VariantTable};
ghost use Rattle.vc_compile_plan.specs.Layouts.{layout_of};
ghost use Rattle.vc_compile_plan.specs.Numbering.{drafts_of};
ghost use Rattle.vc_compile_plan.specs.PlanOf.{IsPlanOf, IsPlanOver};
ghost use Rattle.vc_compile_plan.specs.Refusals.{size_fault};
ghost use Rattle.vc_compile_layout.specs.Standing.{layout_seen};
ghost use Rattle.vc_compile_parts.specs.Parts.{AreNumbered};
ghost use Rattle.vc_compile.specs.Compiled.{IsFaultOver, IsLaidOut, IsPlanWithin};
ghost use Rattle.vc_compile.specs.Compiled.{IsRefusal, IsSound, IsTyped, IsValidIfRead};

use crate::sizes::within_sizes;
use std::alloc::{AllocError, Global};
use vc_compile_layout::{Layout, Lists};
use vc_compile_parts::{Numbered, Taken, numbered_of, taken_of};
use vc_compile_plan::{CompileFault, Standing};
use vc_compile_slots::{is_too_deep, sets_of, slots_of, standings_of, vars_of};
use vc_compile_typing::type_fault;
use vc_compile_uses::texts_of;
use vc_model_parts::Model;
use vc_plan::Plan;
use vc_table::VariantTable;
use vc_types_names::Names;
use vc_value::Listed;

// What stands at each slot, if that is neither too deep nor too much.
fn laid_out(alloc: Global, model: &Model) -> Result<Listed<Standing>, CompileFault>
    ensures standings { IfOk result (λ standings. IsLaidOut model.now standings) }
    ensures fault { IfErr result (λ fault. (tables : List VariantTable) → IsRefusal model.now tables fault) }
{
    if is_too_deep(alloc, model)? {
        return Err(CompileFault::TooDeep);
    }
    match standings_of(alloc, model)? {
        Some(standings) => Ok(standings),
        None => Err(CompileFault::TooManySlots),
    }
}

// The layout of a model by what stands at its slots.
fn layout_over<'n, 'm>(
    alloc: Global,
    names: &'n Names<'m>,
    standings: Listed<Standing>,
) -> Result<Layout<'n, 'm>, AllocError>
    requires { IsLaidOut names.now.model.now standings }
    ensures { IfOk result (λ layout. layout_seen layout ≡ layout_of names.now.model.now) }
{
    let model = names.model();
    let slots = slots_of(alloc, model, standings.as_slice())?;
    let vars = vars_of(alloc, model, slots.as_slice())?;
    let sets = sets_of(alloc, model, slots.as_slice())?;
    let texts = texts_of(alloc, model)?;
    Layout::new(alloc, names, standings, slots, vars, sets, texts)
}

// That no dependency, quantity or time of a layout has a fault where it stands.
fn typed(alloc: Global, layout: &Layout<'_, '_>) -> Result<(), CompileFault>
    ensures typed { IfOk result (λ nothing. IsTyped (layout_seen layout.now)) }
    ensures fault { IfErr result (λ fault. (tables : List VariantTable)
        → IsFaultOver (layout_seen layout.now) tables fault) }
{
    match type_fault(alloc, layout)? {
        Some(found) => Err(CompileFault::Typing {
            kind: found.kind,
            line: found.line,
        }),
        None => Ok(()),
    }
}

// The plan of these parts.
fn assembled(version: u32, taken: Taken, lists: Lists, numbered: Numbered) -> Plan
    ensures { result ≡ record {
      name = taken.name;
      version = version;
      texts = lists.texts;
      dependencies = taken.dependencies;
      characteristics = taken.characteristics;
      objects = taken.objects;
      domains = taken.domains;
      tables = taken.tables;
      slots = lists.slots;
      vars = lists.vars;
      sets = lists.sets;
      conditions = numbered.conditions;
      terms = numbered.terms;
      rules = numbered.rules;
      procedures = numbered.procedures;
      lines = (numbered.shown).lines;
      operations = (numbered.shown).operations;
      guards = (numbered.shown).guards;
      requirements = (numbered.shown).requirements;
    } }
{
    let shown = numbered.shown;
    Plan {
        name: taken.name,
        version,
        texts: lists.texts,
        dependencies: taken.dependencies,
        characteristics: taken.characteristics,
        objects: taken.objects,
        domains: taken.domains,
        tables: taken.tables,
        slots: lists.slots,
        vars: lists.vars,
        sets: lists.sets,
        conditions: numbered.conditions,
        terms: numbered.terms,
        rules: numbered.rules,
        procedures: numbered.procedures,
        lines: shown.lines,
        operations: shown.operations,
        guards: shown.guards,
        requirements: shown.requirements,
    }
}

// The plan of a layout with what is numbered.
fn plan_with(
    alloc: Global,
    layout: Layout<'_, '_>,
    numbered: Numbered,
    tables: &[VariantTable],
) -> Result<Plan, AllocError>
    requires { AreNumbered (layout_seen layout) numbered }
    ensures { IfOk result (λ plan. IsPlanOver (layout_seen layout.entry) (drafts_of (layout_seen layout.entry))
        tables.now plan) }
{
    let taken = taken_of(alloc, &layout, tables)?;
    let version = layout.names().model().version;
    Ok(assembled(version, taken, layout.into_lists(), numbered))
}

// The plan of a layout, if it is typed and no size is too large.
fn plan_over(
    alloc: Global,
    layout: Layout<'_, '_>,
    tables: &[VariantTable],
) -> Result<Plan, CompileFault>
    ensures plan { IfOk result (λ plan. IsPlanWithin (layout_seen layout.entry) tables.now plan) }
    ensures fault { IfErr result (λ fault. IsFaultOver (layout_seen layout.entry) tables.now fault) }
{
    typed(alloc, &layout)?;
    match numbered_of(alloc, &layout)? {
        Some(numbered) => {
            let plan = plan_with(alloc, layout, numbered, tables)?;
            let plan = within_sizes(alloc, plan)?;
            Ok(plan)
        }
        None => Err(CompileFault::TooManyRules),
    }
}

/// The plan of a model with its tables, which are in the order of the model; or the first fault for which it has none:
/// more levels of slots than a plan may have, more slots, the first fault of the typing, then more rules, atoms or
/// cells. What comes later isn't asked where something earlier is found. Want of memory is the only other answer.
/// A plan that is answered is within all sizes, so its atoms and cells can be counted. It is valid wherever a text
/// spells the model and its tables were read with the headers that it gives them.
pub fn compile(alloc: Global, model: &Model, tables: &[VariantTable]) -> Result<Plan, CompileFault>
    ensures plan { IfOk result (λ plan. IsPlanOf model.now tables.now plan) }
    ensures sound { IfOk result (λ plan. IsSound model.now tables.now) }
    ensures within { IfOk result (λ plan. size_fault plan ≡ None) }
    ensures valid { IfOk result (λ plan. IsValidIfRead model.now tables.now plan) }
    ensures fault { IfErr result (λ fault. IsRefusal model.now tables.now fault) }
{
    let standings = laid_out(alloc, model)?;
    let names = Names::new(alloc, model)?;
    let layout = layout_over(alloc, &names, standings)?;
    let plan = plan_over(alloc, layout, tables)?;
    Ok(plan)
}
