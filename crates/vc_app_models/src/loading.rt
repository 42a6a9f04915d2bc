//! A plan, from the files of its model.

ghost use Rattle.std.specs.Prelude.{◌≡◌, ◌≤◌, None, IfOk, IfErr};
ghost use Rattle.vc_model.specs.Spelled.{Spells};
ghost use Rattle.vc_model_drafts.specs.Seen.{seen_model};
ghost use Rattle.vc_plan.specs.Valid.{IsValid};
ghost use Rattle.vc_compile_plan.specs.Refusals.{size_fault};
ghost use Rattle.vc_compile.specs.Compiled.{IsValidIfRead};
ghost use Rattle.vc_app_models.specs.Loading as loading;

use crate::files::read_file;
use crate::stop::ModelStop;
use crate::tables::load_tables;
use std::alloc::Global;
use vc_compile::compile;
use vc_model::read_model;
use vc_model_faults::ModelFault;
use vc_model_parts::Model;
use vc_outside::Shelf;
use vc_plan::Plan;
use vc_table::VariantTable;

// The model that a text spells.
fn model_of(alloc: Global, text: &[u8]) -> Result<Model, ModelStop>
    ensures model { IfOk result (λ model. Spells text.now (seen_model model)) }
    ensures stops { IfErr result (loading.IsTextStop text.now) }
{
    match read_model(alloc, text) {
        Ok(model) => Ok(model),
        Err(ModelFault::Bad { kind, line }) => Err(ModelStop::TextRefused { kind, line }),
        Err(ModelFault::OutOfMemory) => Err(ModelStop::OutOfMemory),
    }
}

// The model that the file of this name spells.
fn load_text<F: Shelf>(alloc: Global, shelf: &mut F, name: &str) -> Result<Model, ModelStop>
    ensures model { IfOk result (loading.IsModelIn (F.files shelf.old) name.now) }
    ensures stops { IfErr result (loading.IsStop (F.files shelf.old) (F.faults shelf.old)
        (F.faults shelf.new) name.now) }
    ensures files { F.files shelf.new ≡ F.files shelf.old }
    ensures later { F.faults shelf.old ≤ F.faults shelf.new }
{
    let text = match read_file(alloc, shelf, name) {
        Ok(text) => text,
        Err(fault) => return Err(ModelStop::Unread(fault)),
    };
    let model = model_of(alloc, text.bytes())?;
    Ok(model)
}

// The plan of a model with its tables.
fn plan_of(alloc: Global, model: &Model, tables: &[VariantTable]) -> Result<Plan, ModelStop>
    ensures plan { IfOk result (loading.HasPlan model.now tables.now) }
    ensures within { IfOk result (λ plan. size_fault plan ≡ None) }
    ensures valid { IfOk result (λ plan. IsValidIfRead model.now tables.now plan) }
    ensures stops { IfErr result (loading.IsCompileStop model.now tables.now) }
{
    match compile(alloc, model, tables) {
        Ok(plan) => Ok(plan),
        Err(fault) => Err(ModelStop::Uncompiled(fault)),
    }
}

/// Reads the model's file, then those of its tables in order, each checked before the next is looked for, and compiles:
/// the model's plan, or the first thing that is wrong. A plan that is answered is valid, and within all sizes.
pub fn load_plan<F: Shelf>(alloc: Global, shelf: &mut F, name: &str) -> Result<Plan, ModelStop>
    ensures plan { IfOk result (loading.IsPlanIn (F.files shelf.old) name.now) }
    ensures within { IfOk result (λ plan. size_fault plan ≡ None) }
    ensures valid { IfOk result IsValid }
    ensures stops { IfErr result (loading.IsStop (F.files shelf.old) (F.faults shelf.old)
        (F.faults shelf.new) name.now) }
    ensures files { F.files shelf.new ≡ F.files shelf.old }
    ensures later { F.faults shelf.old ≤ F.faults shelf.new }
{
    let model = load_text(alloc, shelf, name)?;
    let tables = load_tables(alloc, shelf, &model)?;
    let plan = plan_of(alloc, &model, tables.as_slice())?;
    Ok(plan)
}
