//! How a line is put into the tables.

ghost use Rattle.std.specs.Prelude.{◌≡◌, [], OnOk, option_copied, if◌then◌else◌};
ghost use Rattle.vc_model_scope.specs.Entries.{with_entry};
ghost use Rattle.vc_model_scope.specs.Names.{with_name};
ghost use Rattle.vc_model_scope.specs.Recursions.{with_last, with_option};

use crate::entries::{Entries, Interval};
use crate::names::Names;
use std::alloc::{AllocError, Global};
use vc_value::{Listed, Word};

/// Puts a name last, if there is one that isn't there.
pub fn declare(alloc: Global, names: &mut Names, name: Option<&Word>) -> Result<(), AllocError>
    ensures { OnOk result (names.new ≡ with_option with_name names.old (option_copied name.entry)) }
{
    if let Some(name) = name {
        names.add(alloc, name.bytes())?;
    }
    Ok(())
}

/// The same in a list that the line may end.
pub fn list_name(
    alloc: Global,
    names: &mut Names,
    ends: bool,
    name: Option<&Word>,
) -> Result<(), AllocError>
    ensures { OnOk result (names.new
        ≡ (if ends then [] else with_option with_name names.old (option_copied name.entry))) }
{
    if ends {
        names.clear();
    } else {
        declare(alloc, names, name)?;
    }
    Ok(())
}

/// Puts an entry last, if there is one that isn't there, in a list that the line may end.
pub fn list_entry(
    alloc: Global,
    entries: &mut Entries,
    ends: bool,
    entry: Option<Interval>,
) -> Result<(), AllocError>
    ensures { OnOk result (entries.new ≡ (if ends then [] else with_option with_entry entries.old entry)) }
{
    if ends {
        *entries = Entries::new(alloc);
    } else if let Some(entry) = entry {
        entries.add(entry)?;
    }
    Ok(())
}

/// Puts a number last, if there is one, in a list that the line may end.
pub fn list_number(
    alloc: Global,
    numbers: &mut Listed<u16>,
    ends: bool,
    number: Option<u16>,
) -> Result<(), AllocError>
    ensures { OnOk result (numbers.new ≡ (if ends then [] else with_option with_last numbers.old number)) }
{
    if ends {
        *numbers = Listed::new(alloc);
    } else if let Some(number) = number {
        numbers.push(number)?;
    }
    Ok(())
}
