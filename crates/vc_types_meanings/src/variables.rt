//! What the `?` variables of a constraint stand for.

ghost use Rattle.std.specs.Prelude.{◌≡◌, ℕ, List, map, IfOk, OnOk};
ghost use Rattle.std.specs.Option.{option_or};
ghost use Rattle.vc_types.specs.Meanings.{alias_of, variables_of, variables_of_object};
ghost use Rattle.vc_types_names.specs.FirstNames.{value_of};
ghost use Rattle.vc_types_meanings.specs.Referents.{referent_among};

use crate::meanings::class_meant;
use std::alloc::{AllocError, Global};
use vc_syntax_tree::{Alias, Object};
use vc_types::Referent;
use vc_types_names::{FirstNamed, Names};

fn add_aliases(
    alloc: Global,
    names: &Names,
    class: Option<u32>,
    variables: &mut FirstNamed<Referent>,
    aliases: &[Alias],
) -> Result<(), AllocError>
    ensures { OnOk result ((name : List ℕ) → value_of variables.new name
        ≡ option_or (value_of variables.old name)
        (referent_among (map (alias_of names.now.model.now class) aliases.now) name)) }
{
    for alias in aliases {
        let characteristic = names.member_of(alias.characteristic.name.bytes(), class);
        let referent = Referent::Value(characteristic);
        variables.add(alloc, alias.variable.name.bytes(), referent)?;
    }
    Ok(())
}

fn add_object(
    alloc: Global,
    names: &Names,
    variables: &mut FirstNamed<Referent>,
    object: &Object,
) -> Result<(), AllocError>
    ensures { OnOk result ((name : List ℕ) → value_of variables.new name
        ≡ option_or (value_of variables.old name)
        (referent_among (variables_of_object names.now.model.now object.now) name)) }
{
    let class = class_meant(names, &object.kind);
    variables.add(alloc, object.variable.name.bytes(), Referent::Object(class))?;
    add_aliases(alloc, names, class, variables, object.aliases.as_slice())
}

/// What each `?` variable stands for that the objects declare, of which the first counts.
pub fn referents(
    alloc: Global,
    names: &Names,
    objects: &[Object],
) -> Result<FirstNamed<Referent>, AllocError>
    ensures { IfOk result (λ variables. (name : List ℕ) → value_of variables name
        ≡ referent_among (variables_of names.now.model.now objects.now) name) }
{
    let mut variables = FirstNamed::new(alloc);
    for object in objects {
        add_object(alloc, names, &mut variables, object)?;
    }
    Ok(variables)
}
