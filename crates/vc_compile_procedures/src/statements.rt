//! The statements of procedures.

ghost use Rattle.std.specs.Prelude.{◌≡◌, [], map, IfOk, OnOk};
ghost use Rattle.vc_syntax_tree.specs.Trees as syntax;
ghost use Rattle.vc_compile_plan.specs.Numbering.{statement_brings, statement_from};
ghost use Rattle.vc_compile_plan.specs.Procedures as procedures;
ghost use Rattle.vc_compile_numbering.specs.Growing.{with_draft, with_drafts};
ghost use Rattle.vc_compile_layout.specs.Standing.{layout_seen};
ghost use Rattle.vc_compile_sites.specs.Standing.{site_seen};
ghost use Rattle.vc_compile_procedures.specs.Doing.{seen_with};

use crate::actions::action_at;
use std::alloc::{AllocError, Global};
use vc_compile_layout::Layout;
use vc_compile_numbering::Trees;
use vc_compile_sites::{Site, condition_if};
use vc_plan::Statement;
use vc_syntax_tree::Statement as Stated;
use vc_value::Listed;

// Puts a statement last.
fn push_statement(
    alloc: Global,
    layout: &Layout<'_, '_>,
    site: &Site<'_, '_, '_, '_>,
    statement: &Stated,
    trees: &mut Trees,
    out: &mut Listed<Statement>,
) -> Result<(), AllocError>
    ensures { OnOk result (seen_with trees.new out.new ≡ with_draft statement_brings statement_from
        (seen_with trees.old out.old) (procedures.statement_at (layout_seen layout.now) (site_seen site.now)
        (syntax.statement_of statement.now))) }
{
    let condition = condition_if(alloc, layout, site, &statement.condition)?;
    let condition = trees.add_if_asked(condition)?;
    let action = action_at(alloc, layout, site, &statement.action, trees)?;
    out.push(Statement { action, condition })
}

/// The statements at the site, whose conditions and terms come behind the others.
pub fn statements_at(
    alloc: Global,
    layout: &Layout<'_, '_>,
    site: &Site<'_, '_, '_, '_>,
    statements: &[Stated],
    trees: &mut Trees,
) -> Result<Listed<Statement>, AllocError>
    ensures { IfOk result (λ all. seen_with trees.new all ≡ with_drafts statement_brings statement_from
        (seen_with trees.old []) (map (procedures.statement_at (layout_seen layout.now) (site_seen site.now))
        (map syntax.statement_of statements.now))) }
{
    let mut all = Listed::new(alloc);
    for statement in statements {
        push_statement(alloc, layout, site, statement, trees, &mut all)?;
    }
    Ok(all)
}
