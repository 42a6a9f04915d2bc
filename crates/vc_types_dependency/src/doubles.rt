//! Names that stand twice.

ghost use Rattle.std.specs.Prelude.{◌≡◌, ◌++◌, map, flat_map, IfOk, OnOk};
ghost use Rattle.std.specs.List.{list_any};
ghost use Rattle.vc_syntax_tree.specs.Trees.{binding_of, table_call_of};
ghost use Rattle.vc_types.specs.NameFaults as faults;
ghost use Rattle.vc_types_dependency.specs.DeclaredNames.{declared_names, names_seen};
ghost use Rattle.vc_types_occurrences.specs.Seen.{calls_seen};

use std::alloc::{AllocError, Global};
use vc_syntax_tree::{Alias, Binding, NameLeaf, Object, TableCall};
use vc_types_names::FirstNamed;
use vc_value::Listed;

fn some_twice(alloc: Global, leaves: &[&NameLeaf]) -> Result<bool, AllocError>
    ensures { IfOk result (λ twice. twice ≡ faults.some_twice (names_seen leaves.now)) }
{
    let mut met = FirstNamed::new(alloc);
    for leaf in leaves {
        let name = leaf.name.bytes();
        if met.find(name).is_some() {
            return Ok(true);
        }
        met.add(alloc, name, true)?;
    }
    Ok(false)
}

fn put_columns<'a>(
    out: &mut Listed<&'a NameLeaf>,
    bindings: &'a [Binding],
) -> Result<(), AllocError>
    ensures { OnOk result (names_seen out.new ≡ names_seen out.old ++ map (λ b. b.column.name)
        (map binding_of bindings.now)) }
{
    for binding in bindings {
        out.push(&binding.column)?;
    }
    Ok(())
}

fn names_column_twice(alloc: Global, call: &TableCall) -> Result<bool, AllocError>
    ensures { IfOk result (λ twice. twice ≡ faults.names_column_twice (table_call_of call.now)) }
{
    let mut columns = Listed::new(alloc);
    put_columns(&mut columns, call.bindings.as_slice())?;
    some_twice(alloc, columns.as_slice())
}

/// Whether some call names a column twice.
pub fn some_names_column_twice(alloc: Global, calls: &[&TableCall]) -> Result<bool, AllocError>
    ensures { IfOk result (λ twice. twice ≡ list_any faults.names_column_twice (calls_seen calls.now)) }
{
    for call in calls {
        if names_column_twice(alloc, *call)? {
            return Ok(true);
        }
    }
    Ok(false)
}

fn put_aliases<'a>(out: &mut Listed<&'a NameLeaf>, aliases: &'a [Alias]) -> Result<(), AllocError>
    ensures { OnOk result (names_seen out.new ≡ names_seen out.old ++ map (λ alias. alias.variable.name) aliases.now) }
{
    for alias in aliases {
        out.push(&alias.variable)?;
    }
    Ok(())
}

fn put_object<'a>(out: &mut Listed<&'a NameLeaf>, object: &'a Object) -> Result<(), AllocError>
    ensures { OnOk result (names_seen out.new ≡ names_seen out.old ++ declared_names object.now) }
{
    out.push(&object.variable)?;
    put_aliases(out, object.aliases.as_slice())
}

fn put_objects<'a>(out: &mut Listed<&'a NameLeaf>, objects: &'a [Object]) -> Result<(), AllocError>
    ensures { OnOk result (names_seen out.new ≡ names_seen out.old ++ flat_map declared_names objects.now) }
{
    for object in objects {
        put_object(out, object)?;
    }
    Ok(())
}

/// Whether the objects declare a `?` variable twice.
pub fn declares_twice(alloc: Global, objects: &[Object]) -> Result<bool, AllocError>
    ensures { IfOk result (λ twice. twice ≡ faults.some_twice (flat_map declared_names objects.now)) }
{
    let mut variables = Listed::new(alloc);
    put_objects(&mut variables, objects)?;
    some_twice(alloc, variables.as_slice())
}
