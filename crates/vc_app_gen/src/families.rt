//! The line of a family.

ghost use Rattle.std.specs.Prelude.{◌≡◌, IfOk};
ghost use Rattle.vc_model.specs.Spelled.{Spells};
ghost use Rattle.vc_model_drafts.specs.Seen.{seen_model};
ghost use Rattle.vc_plan.specs.Valid.{IsValid};
ghost use Rattle.vc_app_family.specs.Families.{family_text};
ghost use Rattle.vc_app_gen.specs.Lines as lines;

use crate::asking::{Unmade, tally_plan};
use crate::tally::Tally;
use std::alloc::{AllocError, Global};
use vc_app_family::{family_text, value_count};
use vc_compile::compile;
use vc_model::read_model;
use vc_model_parts::Model;
use vc_plan::Plan;
use vc_value::Word;

// The model that the family's text spells.
fn family_model(alloc: Global, family: u32) -> Result<Model, Unmade>
    ensures { IfOk result (λ model. Spells (family_text family) (seen_model model)) }
{
    let text = family_text(alloc, family)?;
    match read_model(alloc, text.bytes()) {
        Ok(model) => Ok(model),
        Err(_) => Err(Unmade),
    }
}

// The plan of that model.
fn family_plan(alloc: Global, family: u32) -> Result<Plan, Unmade>
    ensures plan { IfOk result (lines.IsFamilyPlan family) }
    ensures valid { IfOk result IsValid }
{
    let model = family_model(alloc, family)?;
    match compile(alloc, &model, &[]) {
        Ok(plan) => Ok(plan),
        Err(_) => Err(Unmade),
    }
}

fn tally_line(alloc: Global, family: u32, tally: Tally) -> Result<Word, AllocError>
    ensures { IfOk result (λ line. line ≡ lines.tally_line family tally) }
{
    let Tally { count, sum } = tally;
    let line = format!(in alloc; "family {family} values {count} sum {sum}\n")?;
    Word::from_bytes(alloc, line.as_bytes())
}

/// The line of a family.
pub fn family_line(alloc: Global, family: u32) -> Result<Word, Unmade>
    ensures { IfOk result (lines.IsLine family) }
{
    let plan = family_plan(alloc, family)?;
    let tally = tally_plan(alloc, &plan, value_count(family));
    drop(plan);
    let line = tally_line(alloc, family, tally?)?;
    Ok(line)
}
