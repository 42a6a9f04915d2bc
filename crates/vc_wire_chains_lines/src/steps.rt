//! The step that a line spells.

ghost use Rattle.std.specs.Prelude.{◌≡◌, IfOk};
ghost use Rattle.std.specs.Option.{option_copied, option_map};
ghost use Rattle.vc_wire_chains_meanings.specs.Meant.{HasNumbers};
ghost use Rattle.vc_wire_chains_lines.specs.Steps as steps;

use crate::cutting::{after, cut};
use crate::numbers::{number_in, numbers_at};
use crate::places::{Place, constraint_at, is_word, place_of, statement_at};
use crate::values::{behind_grain, behind_value, grain_ahead, value_ahead};
use std::alloc::{AllocError, Global};
use vc_plan::{Atom, Origin, Plan, Step};
use vc_value::Listed;
use vc_wire_chains_meanings::meaning::{is_writer, last_of, line_numbered, variable_named};
use vc_wire_requests::cutting::cut_at_space;

fn premises_from(alloc: Global, text: &[u8]) -> Result<Option<Listed<u32>>, AllocError>
    ensures { IfOk result (λ premises. premises ≡ steps.premises_from text.now) }
{
    match after(text, "from ") {
        Some(numbers) => numbers_at(alloc, b' ', numbers),
        None => Ok(None),
    }
}

/// The numbers of the premises, none where nothing is left of the line.
pub fn premises_of(alloc: Global, rest: Option<&[u8]>) -> Result<Option<Listed<u32>>, AllocError>
    ensures { IfOk result (λ premises. premises ≡ steps.premises_of (option_copied rest.entry)) }
{
    match rest {
        Some(text) => premises_from(alloc, text),
        None => Ok(Some(Listed::new(alloc))),
    }
}

fn step_to(
    alloc: Global,
    conclusion: Atom,
    origin: Origin,
    rest: Option<&[u8]>,
) -> Result<Option<Step>, AllocError>
    ensures { IfOk result (λ step. step ≡ steps.step_to conclusion origin (option_copied rest.entry)) }
{
    match premises_of(alloc, rest)? {
        Some(premises) => Ok(Some(Step {
            conclusion,
            origin,
            premises,
        })),
        None => Ok(None),
    }
}

// `i by line k`
fn here_step(alloc: Global, plan: &Plan, line: &[u8]) -> Result<Option<Step>, AllocError>
    requires { HasNumbers plan.now }
    ensures { IfOk result (λ step. step ≡ steps.here_step plan.now line.now) }
{
    let Some((word, more)) = cut_at_space(line) else {
        return Ok(None);
    };
    let Some(slot) = number_in(word) else {
        return Ok(None);
    };
    let Some(text) = after(more, "by line ") else {
        return Ok(None);
    };
    let (word, rest) = cut(b' ', text);
    let Some(number) = number_in(word) else {
        return Ok(None);
    };
    match line_numbered(plan, slot, number) {
        Some(rule) => step_to(alloc, Atom::Here(slot), Origin::Rule(rule), rest),
        None => Ok(None),
    }
}

// `i C`
fn variable_at<'a>(plan: &Plan, line: &'a [u8]) -> Option<(u32, &'a [u8])>
    requires { HasNumbers plan.now }
    ensures { option_map (λ parts. (parts.0, parts.1.now)) result ≡ steps.variable_at plan.now line.now }
{
    let (word, more) = cut_at_space(line)?;
    let slot = number_in(word)?;
    let (name, rest) = cut_at_space(more)?;
    let var = variable_named(plan, slot, name)?;
    Some((var, rest))
}

// `NAME k at i,j` behind a grain that is out
fn out_by(
    alloc: Global,
    plan: &Plan,
    conclusion: Atom,
    by: &[u8],
) -> Result<Option<Step>, AllocError>
    requires { HasNumbers plan.now }
    ensures { IfOk result (λ step. step ≡ steps.out_by plan.now conclusion by.now) }
{
    let Some(place) = place_of(by) else {
        return Ok(None);
    };
    match constraint_at(alloc, plan, place)? {
        Some(rule) => step_to(alloc, conclusion, Origin::Rule(rule), place.rest),
        None => Ok(None),
    }
}

// `i C GRAIN by constraint NAME k at i,j`
fn out_step(alloc: Global, plan: &Plan, line: &[u8]) -> Result<Option<Step>, AllocError>
    requires { HasNumbers plan.now }
    ensures { IfOk result (λ step. step ≡ steps.out_step plan.now line.now) }
{
    let Some((var, text)) = variable_at(plan, line) else {
        return Ok(None);
    };
    let Some(grain) = grain_ahead(alloc, plan, var, text)? else {
        return Ok(None);
    };
    let Some(rest) = behind_grain(text) else {
        return Ok(None);
    };
    match after(rest, "by constraint ") {
        Some(by) => out_by(alloc, plan, Atom::Out(var, grain), by),
        None => Ok(None),
    }
}

fn writer_if(plan: &Plan, var: u32, procedure: u32, statement: u32) -> Option<Origin>
    ensures { result ≡ steps.writer_if plan.now var procedure statement }
{
    if is_writer(plan, var, procedure, statement) {
        Some(Origin::Written {
            proc: procedure,
            statement,
        })
    } else {
        None
    }
}

fn writer_at(plan: &Plan, var: u32, place: Place<'_>) -> Option<Origin>
    requires { HasNumbers plan.now }
    ensures { result ≡ steps.writer_at plan.now var (steps.stood_by place.entry) }
{
    let (procedure, statement) = statement_at(plan, place)?;
    writer_if(plan, var, procedure, statement)
}

fn ruled(rule: Option<u32>) -> Option<Origin>
    ensures { result ≡ steps.ruled rule }
{
    match rule {
        Some(rule) => Some(Origin::Rule(rule)),
        None => None,
    }
}

fn giver_at(
    alloc: Global,
    plan: &Plan,
    var: u32,
    kind: &[u8],
    place: Place<'_>,
) -> Result<Option<Origin>, AllocError>
    requires { HasNumbers plan.now }
    ensures { IfOk result (λ origin. origin ≡ steps.giver_at plan.now var kind.now (steps.stood_by place.entry)) }
{
    if is_word(kind, "procedure") {
        return Ok(writer_at(plan, var, place));
    }
    if is_word(kind, "constraint") {
        let rule = constraint_at(alloc, plan, place)?;
        return Ok(ruled(rule));
    }
    Ok(None)
}

fn placed_step(
    alloc: Global,
    plan: &Plan,
    conclusion: Atom,
    var: u32,
    kind: &[u8],
    rest: Option<&[u8]>,
) -> Result<Option<Step>, AllocError>
    requires { HasNumbers plan.now }
    ensures { IfOk result (λ step. step
        ≡ steps.placed_step plan.now conclusion var kind.now (option_copied rest.entry)) }
{
    let Some(more) = rest else {
        return Ok(None);
    };
    let Some(place) = place_of(more) else {
        return Ok(None);
    };
    match giver_at(alloc, plan, var, kind, place)? {
        Some(origin) => step_to(alloc, conclusion, origin, place.rest),
        None => Ok(None),
    }
}

fn last_step(
    alloc: Global,
    plan: &Plan,
    conclusion: Atom,
    var: u32,
    rest: Option<&[u8]>,
) -> Result<Option<Step>, AllocError>
    requires { HasNumbers plan.now }
    ensures { IfOk result (λ step. step ≡ steps.last_step plan.now conclusion var (option_copied rest.entry)) }
{
    match last_of(plan, var) {
        Some(rule) => step_to(alloc, conclusion, Origin::Rule(rule), rest),
        None => Ok(None),
    }
}

fn given_step(
    alloc: Global,
    plan: &Plan,
    conclusion: Atom,
    var: u32,
    kind: &[u8],
    rest: Option<&[u8]>,
) -> Result<Option<Step>, AllocError>
    requires { HasNumbers plan.now }
    ensures { IfOk result (λ step. step
        ≡ steps.given_step plan.now conclusion var kind.now (option_copied rest.entry)) }
{
    if is_word(kind, "user") {
        return step_to(alloc, conclusion, Origin::User, rest);
    }
    if is_word(kind, "last") {
        return last_step(alloc, plan, conclusion, var, rest);
    }
    placed_step(alloc, plan, conclusion, var, kind, rest)
}

fn is_by(
    alloc: Global,
    plan: &Plan,
    conclusion: Atom,
    var: u32,
    by: &[u8],
) -> Result<Option<Step>, AllocError>
    requires { HasNumbers plan.now }
    ensures { IfOk result (λ step. step ≡ steps.is_by plan.now conclusion var by.now) }
{
    let (kind, rest) = cut(b' ', by);
    given_step(alloc, plan, conclusion, var, kind, rest)
}

// `i C value by WHOM`
fn is_step(alloc: Global, plan: &Plan, line: &[u8]) -> Result<Option<Step>, AllocError>
    requires { HasNumbers plan.now }
    ensures { IfOk result (λ step. step ≡ steps.is_step plan.now line.now) }
{
    let Some((var, text)) = variable_at(plan, line) else {
        return Ok(None);
    };
    let Some(value) = value_ahead(alloc, plan, var, text)? else {
        return Ok(None);
    };
    let Some(rest) = behind_value(text) else {
        return Ok(None);
    };
    match after(rest, "by ") {
        Some(by) => is_by(alloc, plan, Atom::Is(var, value), var, by),
        None => Ok(None),
    }
}

fn step_said(
    alloc: Global,
    plan: &Plan,
    verb: &[u8],
    line: &[u8],
) -> Result<Option<Step>, AllocError>
    requires { HasNumbers plan.now }
    ensures { IfOk result (λ step. step ≡ steps.step_said plan.now verb.now line.now) }
{
    if is_word(verb, "here") {
        return here_step(alloc, plan, line);
    }
    if is_word(verb, "out") {
        return out_step(alloc, plan, line);
    }
    if is_word(verb, "is") {
        return is_step(alloc, plan, line);
    }
    Ok(None)
}

fn step_behind(alloc: Global, plan: &Plan, line: &[u8]) -> Result<Option<Step>, AllocError>
    requires { HasNumbers plan.now }
    ensures { IfOk result (λ step. step ≡ steps.step_behind plan.now line.now) }
{
    match cut_at_space(line) {
        Some((verb, more)) => step_said(alloc, plan, verb, more),
        None => Ok(None),
    }
}

/// The step that the line spells in the plan, if it spells one of this number.
pub fn read_step(
    alloc: Global,
    plan: &Plan,
    number: u64,
    line: &[u8],
) -> Result<Option<Step>, AllocError>
    requires { HasNumbers plan.now }
    ensures { IfOk result (λ step. step ≡ steps.step_of plan.now number line.now) }
{
    let Some((word, more)) = cut_at_space(line) else {
        return Ok(None);
    };
    match number_in(word) {
        Some(own) if u64::from(own) == number => step_behind(alloc, plan, more),
        _ => Ok(None),
    }
}
