//! What a plan takes over from its model and the files of its tables.

ghost use Rattle.std.specs.Prelude.{◌≡◌, map, IfOk};
ghost use Rattle.vc_compile_plan.specs.Cuts as cuts;
ghost use Rattle.vc_compile_plan.specs.Tables as tables;
ghost use Rattle.vc_compile_layout.specs.Standing.{layout_seen};

use std::alloc::{AllocError, Global};
use vc_compile_cuts::domains_of;
use vc_compile_layout::Layout;
use vc_compile_tables::{characteristics_of, copy_word, dependency_names, objects_of, tables_of};
use vc_plan::{Characteristic, Object, Table};
use vc_table::VariantTable;
use vc_value::{Domain, Listed, Word};

/// The names, characteristics, objects, domains and tables of a plan.
#[derive(Drop)]
pub struct Taken {
    pub name: Word,
    pub dependencies: Listed<Word>,
    pub characteristics: Listed<Characteristic>,
    pub objects: Listed<Object>,
    pub domains: Listed<Domain>,
    pub tables: Listed<Table>,
}

// The domains, cut at the numbers of the layout's dependencies and of the tables.
fn domains(
    alloc: Global,
    layout: &Layout<'_, '_>,
    read: &[VariantTable],
) -> Result<Listed<Domain>, AllocError>
    ensures { IfOk result (λ domains. domains ≡ cuts.domains_of (layout_seen layout.now) read.now) }
{
    let domains = domains_of(alloc, layout.names(), layout.slots(), read)?;
    Ok(domains)
}

/// What a plan takes over.
pub fn taken_of(
    alloc: Global,
    layout: &Layout<'_, '_>,
    read: &[VariantTable],
) -> Result<Taken, AllocError>
    ensures { IfOk result (λ taken. taken ≡ record {
      name = ((layout_seen layout.now).model).name;
      dependencies = map (λ dependency. dependency.name) ((layout_seen layout.now).model).dependencies;
      characteristics = tables.characteristics_of (layout_seen layout.now).model;
      objects = tables.objects_of (layout_seen layout.now).model;
      domains = cuts.domains_of (layout_seen layout.now) read.now;
      tables = tables.tables_of (layout_seen layout.now).model read.now;
    }) }
{
    let model = layout.names().model();
    Ok(Taken {
        name: copy_word(alloc, &model.name)?,
        dependencies: dependency_names(alloc, model.dependencies.as_slice())?,
        characteristics: characteristics_of(alloc, model.characteristics.as_slice())?,
        objects: objects_of(alloc, model)?,
        domains: domains(alloc, layout, read)?,
        tables: tables_of(alloc, model, read)?,
    })
}
