//! Selection conditions, with the numbers of their conditions.

ghost use Rattle.std.specs.Prelude.{◌≡◌, ◌∷◌, [], length, map, IfOk, OnOk};
ghost use Rattle.vc_compile_plan.specs.Conditions.{condition_at};
ghost use Rattle.vc_compile_plan.specs.Shown.{choice_at};
ghost use Rattle.vc_compile_numbering.specs.Growing.{kept, with_conditions};
ghost use Rattle.vc_compile_layout.specs.Standing.{layout_seen};
ghost use Rattle.vc_compile_sites.specs.Standing.{asked_seen, site_seen};
ghost use Rattle.vc_compile_shown.specs.Choosing.{AreChosen};

use std::alloc::{AllocError, Global};
use vc_compile_layout::Layout;
use vc_compile_numbering::Trees;
use vc_compile_sites::{Asked, Site, condition_at};
use vc_plan::Selection;
use vc_value::Listed;

fn choose(
    alloc: Global,
    layout: &Layout<'_, '_>,
    site: &Site<'_, '_, '_, '_>,
    asked: Asked<'_>,
    trees: &mut Trees,
) -> Result<Selection, AllocError>
    ensures number { IfOk result (λ selection. selection ≡ record {
      dependency = asked.entry.dependency;
      condition = length (kept trees.old).conditions;
    }) }
    ensures kept { OnOk result (kept trees.new ≡ with_conditions (kept trees.old)
        (condition_at (layout_seen layout.now) (site_seen site.now) (asked_seen asked.entry).condition ∷ [])) }
{
    let condition = condition_at(alloc, layout, site, asked.condition)?;
    Ok(Selection {
        dependency: asked.dependency,
        condition: trees.add_condition(condition)?,
    })
}

/// The selection conditions at the site. Their conditions come behind the others, one after another.
pub fn selections_at(
    alloc: Global,
    layout: &Layout<'_, '_>,
    site: &Site<'_, '_, '_, '_>,
    asked: &[Asked<'_>],
    trees: &mut Trees,
) -> Result<Listed<Selection>, AllocError>
    ensures { IfOk result (λ selections. AreChosen (kept trees.old) (map (choice_at (layout_seen layout.now)
        (site_seen site.now)) (map asked_seen asked.now)) selections (kept trees.new)) }
{
    let mut selections = Listed::new(alloc);
    for one in asked {
        selections.push(choose(alloc, layout, site, *one, trees)?)?;
    }
    Ok(selections)
}
