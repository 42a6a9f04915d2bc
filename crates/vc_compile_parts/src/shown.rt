//! What a plan shows beside its rules, numbered behind them.

ghost use Rattle.std.specs.Prelude.{◌≡◌, IfOk};
ghost use Rattle.vc_compile_numbering.specs.Growing.{kept, seen};
ghost use Rattle.vc_compile_layout.specs.Standing.{layout_seen};
ghost use Rattle.vc_compile_parts.specs.InTurn as in_turn;

use std::alloc::{AllocError, Global};
use vc_compile_layout::Layout;
use vc_compile_numbering::{Numbering, Trees};
use vc_compile_shown::{push_guards, push_lines, push_operations, push_requirements};
use vc_plan::{Guard, Line, Operation, Requirement};
use vc_value::Listed;

/// The preconditions, requirements, lines and operations of a plan.
#[derive(Drop)]
pub struct Shown {
    pub guards: Listed<Guard>,
    pub requirements: Listed<Requirement>,
    pub lines: Listed<Line>,
    pub operations: Listed<Operation>,
}

fn guards_of(
    alloc: Global,
    layout: &Layout<'_, '_>,
    trees: Trees,
) -> Result<Numbering<Guard>, AllocError>
    requires { kept trees ≡ (in_turn.ruled (layout_seen layout.now)).kept }
    ensures { IfOk result (λ guards. seen guards ≡ in_turn.guarded (layout_seen layout.now)) }
{
    let mut guards = Numbering::over(alloc, trees);
    push_guards(alloc, layout, &mut guards)?;
    Ok(guards)
}

fn requirements_of(
    alloc: Global,
    layout: &Layout<'_, '_>,
    trees: Trees,
) -> Result<Numbering<Requirement>, AllocError>
    requires { kept trees ≡ (in_turn.guarded (layout_seen layout.now)).kept }
    ensures { IfOk result (λ requirements. seen requirements ≡ in_turn.required (layout_seen layout.now)) }
{
    let mut requirements = Numbering::over(alloc, trees);
    push_requirements(alloc, layout, &mut requirements)?;
    Ok(requirements)
}

fn lines_of(
    alloc: Global,
    layout: &Layout<'_, '_>,
    trees: Trees,
) -> Result<Numbering<Line>, AllocError>
    requires { kept trees ≡ (in_turn.required (layout_seen layout.now)).kept }
    ensures { IfOk result (λ lines. seen lines ≡ in_turn.lined (layout_seen layout.now)) }
{
    let mut lines = Numbering::over(alloc, trees);
    push_lines(alloc, layout, &mut lines)?;
    Ok(lines)
}

fn operations_of(
    alloc: Global,
    layout: &Layout<'_, '_>,
    trees: Trees,
) -> Result<Numbering<Operation>, AllocError>
    requires { kept trees ≡ (in_turn.lined (layout_seen layout.now)).kept }
    ensures { IfOk result (λ operations. seen operations ≡ in_turn.operated (layout_seen layout.now)) }
{
    let mut operations = Numbering::over(alloc, trees);
    push_operations(alloc, layout, &mut operations)?;
    Ok(operations)
}

/// What a plan shows, behind the conditions and terms of its rules.
pub fn shown_of(
    alloc: Global,
    layout: &Layout<'_, '_>,
    trees: Trees,
) -> Result<(Trees, Shown), AllocError>
    requires { kept trees ≡ (in_turn.ruled (layout_seen layout.now)).kept }
    ensures trees { IfOk result (λ done. kept done.0 ≡ (in_turn.operated (layout_seen layout.now)).kept) }
    ensures shown { IfOk result (λ done. done.1 ≡ record {
      guards = (in_turn.guarded (layout_seen layout.now)).items;
      requirements = (in_turn.required (layout_seen layout.now)).items;
      lines = (in_turn.lined (layout_seen layout.now)).items;
      operations = (in_turn.operated (layout_seen layout.now)).items;
    }) }
{
    let (trees, guards) = guards_of(alloc, layout, trees)?.into_parts();
    let (trees, requirements) = requirements_of(alloc, layout, trees)?.into_parts();
    let (trees, lines) = lines_of(alloc, layout, trees)?.into_parts();
    let (trees, operations) = operations_of(alloc, layout, trees)?.into_parts();
    let shown = Shown {
        guards,
        requirements,
        lines,
        operations,
    };
    Ok((trees, shown))
}
