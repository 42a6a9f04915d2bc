//! Which characteristics the classes have, as flags.

ghost use Rattle.std.specs.Prelude.{◌≡◌, None, Some, option_copied, IfOk, OnOk, if◌then◌else◌};
ghost use Rattle.vc_types_names.specs.Members.{flags_of, is_flagged, marked, rows_of};

use std::alloc::{AllocError, Global};
use vc_model_parts::Class;
use vc_value::Listed;

fn mark(flags: &mut Vec<bool>, member: u32) -> Result<(), AllocError>
    ensures { OnOk result (flags.new.items ≡ marked flags.old.items member) }
{
    let place = member as usize;
    if place >= flags.len() {
        flags.resize(place + 1, false)?;
    }
    flags[place] = true;
    Ok(())
}

// For each characteristic, up to the last of the members, whether it is one of them.
fn flags_of(alloc: Global, members: &[u32]) -> Result<Listed<bool>, AllocError>
    ensures { IfOk result (λ flags. flags ≡ flags_of members.now) }
{
    let mut flags = Vec::new(alloc);
    for member in members {
        mark(&mut flags, *member)?;
    }
    Ok(Listed::from_vec(flags))
}

/// The flags of each class.
pub fn rows_of(alloc: Global, classes: &[Class]) -> Result<Listed<Listed<bool>>, AllocError>
    ensures { IfOk result (λ rows. rows ≡ rows_of classes.now) }
{
    let mut rows = Listed::new(alloc);
    for class in classes {
        rows.push(flags_of(alloc, class.members.as_slice())?)?;
    }
    Ok(rows)
}

fn has_flag(flags: &Listed<bool>, characteristic: u32) -> bool
    ensures { result ≡ is_flagged (Some flags.now) characteristic }
{
    match flags.as_slice().get(characteristic as usize) {
        Some(flag) => *flag,
        None => false,
    }
}

/// The characteristic, if it is flagged.
pub fn if_flagged(flags: Option<&Listed<bool>>, characteristic: u32) -> Option<u32>
    ensures { result ≡ (if is_flagged (option_copied flags.entry) characteristic then Some characteristic else None) }
{
    match flags {
        Some(flags) if has_flag(flags, characteristic) => Some(characteristic),
        _ => None,
    }
}
