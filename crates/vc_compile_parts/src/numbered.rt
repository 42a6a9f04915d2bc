//! What of a plan has conditions and terms, with these: rules, what it shows, procedures.

ghost use Rattle.std.specs.Prelude.{◌≡◌, ◌<◌, length, map, IfOk, IfSome, IfNone};
ghost use Rattle.vc_compile_plan.specs.Refusals.{most_rules};
ghost use Rattle.vc_compile_plan.specs.Rules.{rule_drafts};
ghost use Rattle.vc_compile_numbering.specs.Growing.{kept, seen};
ghost use Rattle.vc_compile_layout.specs.Standing.{layout_seen};
ghost use Rattle.vc_compile_parts.specs.Parts.{AreNumbered};
ghost use Rattle.vc_compile_parts.specs.InTurn as in_turn;

use crate::ruled::rules_of;
use crate::shown::{Shown, shown_of};
use std::alloc::{AllocError, Global};
use vc_compile_layout::Layout;
use vc_compile_numbering::{Numbering, Trees};
use vc_compile_procedures::push_procedures;
use vc_plan::{Condition, Procedure, Rule, Term};
use vc_value::Listed;

/// Rules, what a plan shows, and procedures, with all their conditions and terms.
#[derive(Drop)]
pub struct Numbered {
    pub conditions: Listed<Condition>,
    pub terms: Listed<Term>,
    pub rules: Listed<Rule>,
    pub shown: Shown,
    pub procedures: Listed<Procedure>,
}

fn procedures_of(
    alloc: Global,
    layout: &Layout<'_, '_>,
    trees: Trees,
) -> Result<Numbering<Procedure>, AllocError>
    requires { kept trees ≡ (in_turn.operated (layout_seen layout.now)).kept }
    ensures { IfOk result (λ procedures. seen procedures ≡ in_turn.proceeded (layout_seen layout.now)) }
{
    let mut procedures = Numbering::over(alloc, trees);
    push_procedures(alloc, layout, &mut procedures)?;
    Ok(procedures)
}

// All behind these rules.
fn numbered_behind(
    alloc: Global,
    layout: &Layout<'_, '_>,
    rules: Numbering<Rule>,
) -> Result<Numbered, AllocError>
    requires { seen rules ≡ in_turn.ruled (layout_seen layout.now) }
    ensures { IfOk result (λ numbered. AreNumbered (layout_seen layout.now) numbered) }
{
    let (trees, rules) = rules.into_parts();
    let (trees, shown) = shown_of(alloc, layout, trees)?;
    let (trees, procedures) = procedures_of(alloc, layout, trees)?.into_parts();
    let (conditions, terms) = trees.into_parts();
    Ok(Numbered {
        conditions,
        terms,
        rules,
        shown,
        procedures,
    })
}

/// All that has conditions and terms; none where a plan would have too many rules.
pub fn numbered_of(alloc: Global, layout: &Layout<'_, '_>) -> Result<Option<Numbered>, AllocError>
    ensures some { IfOk result (λ found. IfSome found (λ numbered. AreNumbered (layout_seen layout.now) numbered)) }
    ensures none { IfOk result (λ found. IfNone found
        (most_rules < length (rule_drafts (layout_seen layout.now)))) }
{
    match rules_of(alloc, layout)? {
        Some(rules) => Ok(Some(numbered_behind(alloc, layout, rules)?)),
        None => Ok(None),
    }
}
