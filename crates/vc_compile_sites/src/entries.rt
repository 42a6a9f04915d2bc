//! The listed values of characteristics, with what is used there.

ghost use Rattle.std.specs.Prelude.{◌≡◌, map, IfOk};
ghost use Rattle.vc_compile_plan.specs.Shown as shown;
ghost use Rattle.vc_compile_sites.specs.Standing.{entry_seen};

use std::alloc::{AllocError, Global};
use vc_model_parts::{NumberValue, TextValue, Values};
use vc_plan::Piece;
use vc_value::{Grain, Listed};

/// A listed value with what is used there.
#[derive(Clone, Copy)]
pub struct Entry<'m> {
    pub piece: Piece,
    pub uses: &'m [u32],
}

fn entries_of_texts<'m>(
    alloc: Global,
    values: &'m [TextValue],
) -> Result<Listed<Entry<'m>>, AllocError>
    ensures { IfOk result (λ entries. map entry_seen entries ≡ map shown.entry_of_text values.now) }
{
    let mut entries = Listed::new(alloc);
    for value in values {
        entries.push(Entry {
            piece: Piece::OneText(value.text),
            uses: value.uses.as_slice(),
        })?;
    }
    Ok(entries)
}

fn entries_of_numbers<'m>(
    alloc: Global,
    values: &'m [NumberValue],
) -> Result<Listed<Entry<'m>>, AllocError>
    ensures { IfOk result (λ entries. map entry_seen entries ≡ map shown.entry_of_numbers values.now) }
{
    let mut entries = Listed::new(alloc);
    for value in values {
        entries.push(Entry {
            piece: Piece::Stretch(Grain {
                low: value.low,
                high: value.high,
            }),
            uses: value.uses.as_slice(),
        })?;
    }
    Ok(entries)
}

/// The listed values, in order.
pub fn entries_of<'m>(alloc: Global, values: &'m Values) -> Result<Listed<Entry<'m>>, AllocError>
    ensures { IfOk result (λ entries. map entry_seen entries ≡ shown.entries_of values.now) }
{
    match values {
        Values::Texts { values, .. } => entries_of_texts(alloc, values.as_slice()),
        Values::Numbers { values, .. } => entries_of_numbers(alloc, values.as_slice()),
    }
}
