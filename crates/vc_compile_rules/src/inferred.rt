//! The variables that a constraint's rule may narrow, each once.

ghost use Rattle.std.specs.Prelude.{◌≡◌, [], map, IfOk, OnOk};
ghost use Rattle.vc_compile_plan.specs.Rules.{distinct};
ghost use Rattle.vc_compile_plan.specs.Sites.{var_meant};
ghost use Rattle.vc_compile_layout.specs.Standing.{layout_seen};
ghost use Rattle.vc_compile_sites.specs.Standing.{site_seen};
ghost use Rattle.vc_compile_rules.specs.Inferring.{with_number};

use indexmap::IndexSet;
use std::alloc::{AllocError, Global};
use vc_compile_layout::Layout;
use vc_compile_sites::Site;
use vc_syntax_tree::Operand;
use vc_value::Listed;

// Puts the number last, unless it is there; the set, which finds it, has the same numbers.
fn add(met: &mut IndexSet<u32>, numbers: &mut Listed<u32>, number: u32) -> Result<(), AllocError>
    requires { met.old.keys ≡ numbers.old }
    ensures same { OnOk result (met.new.keys ≡ numbers.new) }
    ensures added { OnOk result (numbers.new ≡ with_number numbers.old number) }
{
    let (_, is_new) = met.insert_full(number)?;
    if is_new {
        numbers.push(number)?;
    }
    Ok(())
}

/// The variables that operands are, each once, where it stands first.
pub fn inferred_at(
    alloc: Global,
    layout: &Layout<'_, '_>,
    site: &Site<'_, '_, '_, '_>,
    inferences: &[Operand],
) -> Result<Listed<u32>, AllocError>
    ensures { IfOk result (λ vars. vars
        ≡ distinct (map (var_meant (layout_seen layout.now) (site_seen site.now)) inferences.now)) }
{
    let mut met = IndexSet::new(alloc);
    let mut vars = Listed::new(alloc);
    for operand in inferences {
        add(&mut met, &mut vars, site.var_meant(layout, operand))?;
    }
    Ok(vars)
}
