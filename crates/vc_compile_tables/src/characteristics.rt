//! Characteristics with their lists as they are, uncut.

ghost use Rattle.std.specs.Prelude.{◌≡◌, map, IfOk};
ghost use Rattle.vc_compile_plan.specs.Tables as kept;

use crate::copies::copy_word;
use std::alloc::{AllocError, Global};
use vc_model_parts::{Characteristic as Declared, Values, domain_of};
use vc_plan::Characteristic;
use vc_value::{Listed, Word};

fn unit_of(alloc: Global, values: &Values) -> Result<Option<Word>, AllocError>
    ensures { IfOk result (λ unit. unit ≡ kept.unit_of values.now) }
{
    match values {
        Values::Numbers {
            unit: Some(unit),
            ..
        } => Ok(Some(copy_word(alloc, unit)?)),
        _ => Ok(None),
    }
}

fn characteristic_from(alloc: Global, declared: &Declared) -> Result<Characteristic, AllocError>
    ensures { IfOk result (λ copy. copy ≡ kept.characteristic_from declared.now) }
{
    Ok(Characteristic {
        name: copy_word(alloc, &declared.name)?,
        unit: unit_of(alloc, &declared.values)?,
        required: declared.required,
        list: domain_of(alloc, &declared.values)?,
    })
}

/// The characteristics, by their numbers, each with its unit and its values as they are listed.
pub fn characteristics_of(
    alloc: Global,
    declared: &[Declared],
) -> Result<Listed<Characteristic>, AllocError>
    ensures { IfOk result (λ all. all ≡ map kept.characteristic_from declared.now) }
{
    let mut all = Listed::new(alloc);
    for characteristic in declared {
        all.push(characteristic_from(alloc, characteristic)?)?;
    }
    Ok(all)
}
