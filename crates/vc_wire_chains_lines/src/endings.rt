//! The clash that a line spells.

ghost use Rattle.std.specs.Prelude.{◌≡◌, IfOk};
ghost use Rattle.std.specs.Option.{option_copied};
ghost use Rattle.vc_wire_chains_meanings.specs.Meant.{HasNumbers};
ghost use Rattle.vc_wire_chains_lines.specs.Steps as steps;

use crate::cutting::after;
use crate::places::{Place, constraint_at, is_word, place_of, statement_at};
use crate::steps::premises_of;
use std::alloc::{AllocError, Global};
use vc_plan::{Culprit, Plan};
use vc_value::Listed;
use vc_wire_requests::cutting::cut_at_space;

/// What contradicts, and the numbers of the steps that it follows from.
#[derive(Debug, Drop)]
pub struct Ending {
    pub culprit: Culprit,
    pub premises: Listed<u32>,
}

fn blamed(rule: Option<u32>) -> Option<Culprit>
    ensures { result ≡ steps.blamed rule }
{
    match rule {
        Some(rule) => Some(Culprit::Rule(rule)),
        None => None,
    }
}

fn wrote(written: Option<(u32, u32)>) -> Option<Culprit>
    ensures { result ≡ steps.wrote written }
{
    match written {
        Some((procedure, statement)) => Some(Culprit::Written {
            proc: procedure,
            statement,
        }),
        None => None,
    }
}

fn culprit_at(
    alloc: Global,
    plan: &Plan,
    kind: &[u8],
    place: Place<'_>,
) -> Result<Option<Culprit>, AllocError>
    requires { HasNumbers plan.now }
    ensures { IfOk result (λ culprit. culprit ≡ steps.culprit_at plan.now kind.now (steps.stood_by place.entry)) }
{
    if is_word(kind, "procedure") {
        return Ok(wrote(statement_at(plan, place)));
    }
    if is_word(kind, "constraint") {
        let rule = constraint_at(alloc, plan, place)?;
        return Ok(blamed(rule));
    }
    Ok(None)
}

fn ending_with(
    alloc: Global,
    culprit: Culprit,
    rest: Option<&[u8]>,
) -> Result<Option<Ending>, AllocError>
    ensures { IfOk result (λ ending. ending ≡ steps.ending_with culprit (option_copied rest.entry)) }
{
    match premises_of(alloc, rest)? {
        Some(premises) => Ok(Some(Ending { culprit, premises })),
        None => Ok(None),
    }
}

fn ending_by(
    alloc: Global,
    plan: &Plan,
    kind: &[u8],
    text: &[u8],
) -> Result<Option<Ending>, AllocError>
    requires { HasNumbers plan.now }
    ensures { IfOk result (λ ending. ending ≡ steps.ending_by plan.now kind.now text.now) }
{
    let Some(place) = place_of(text) else {
        return Ok(None);
    };
    match culprit_at(alloc, plan, kind, place)? {
        Some(culprit) => ending_with(alloc, culprit, place.rest),
        None => Ok(None),
    }
}

/// The clash that the line spells in the plan, if it spells one.
pub fn read_ending(alloc: Global, plan: &Plan, line: &[u8]) -> Result<Option<Ending>, AllocError>
    requires { HasNumbers plan.now }
    ensures { IfOk result (λ ending. ending ≡ steps.ending_of plan.now line.now) }
{
    let Some(by) = after(line, "clash by ") else {
        return Ok(None);
    };
    match cut_at_space(by) {
        Some((kind, text)) => ending_by(alloc, plan, kind, text),
        None => Ok(None),
    }
}
