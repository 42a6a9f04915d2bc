//! Which kind of fault stands at a line.

ghost use Rattle.std.specs.Prelude.{◌≡◌, IfOk, false, not};
ghost use Rattle.std.specs.Str.Lines.{lines};
ghost use Rattle.vc_model_lines.specs.Classified.{lines_below, lines_from};
ghost use Rattle.vc_model_scope.specs.LookAhead as ahead;
ghost use Rattle.vc_model_faults.specs.Kinds as kinds;
ghost use Rattle.vc_model_faults.specs.Readings.{is_unread};

use crate::fault::ModelFaultKind;
use crate::limits::is_too_many;
use crate::misplaced::is_misplaced;
use crate::misspelled::is_misspelled;
use crate::twice::is_twice;
use crate::unknown::{is_unknown, is_wrong};
use crate::values::is_bad;
use std::alloc::{AllocError, Global};
use vc_model_lines::Line;
use vc_model_scope::look_ahead::{has_long_line, has_value};
use vc_model_scope::scope::Scope;

#[tactic(auto, unfolding(crate::specs::Kinds::is_too_long))]
fn is_too_long(line: &Line, after: &[u8]) -> bool
    ensures { result ≡ kinds.is_too_long line.now (lines_below line.now after.now) }
{
    match line {
        Line::TooLong(_) => true,
        Line::Block(_) => has_long_line(after),
        _ => false,
    }
}

#[tactic(auto, unfolding(crate::specs::Kinds::is_no_form))]
fn is_no_form(line: &Line) -> bool
    ensures { result ≡ kinds.is_no_form line.now }
{
    match line {
        Line::NoForm(_) => true,
        _ => false,
    }
}

#[tactic(auto, unfolding(crate::specs::Kinds::is_action))]
fn is_action(line: &Line) -> bool
    ensures { result ≡ kinds.is_action line.now }
{
    match line {
        Line::Action => true,
        _ => false,
    }
}

#[tactic(auto, unfolding(crate::specs::Kinds::lacks_values))]
fn lacks_values(alloc: Global, line: &Line, after: &[u8]) -> Result<bool, AllocError>
    ensures { IfOk result (λ lacks. lacks ≡ kinds.lacks_values line.now (lines_below line.now after.now)) }
{
    match line {
        Line::Char(_) | Line::Num(_) => has_no_value(alloc, after),
        _ => Ok(false),
    }
}

fn has_no_value(alloc: Global, after: &[u8]) -> Result<bool, AllocError>
    ensures { IfOk result (λ none. none ≡ not (ahead.has_value (lines_from false (lines after.now)))) }
{
    let has = has_value(alloc, after)?;
    Ok(!has)
}

#[tactic(auto, unfolding(crate::specs::Kinds::is_mixed))]
fn is_mixed(line: &Line) -> bool
    ensures { result ≡ kinds.is_mixed line.now }
{
    match line {
        Line::Char(line) => line.multiple && line.restrictable,
        _ => false,
    }
}

/// The least kind of fault that stands at the line, of those that come before Syntax, if one does.
#[tactic(auto, unfolding(crate::specs::Kinds::early_kind))]
pub fn early_kind(
    alloc: Global,
    scope: &Scope,
    line: &Line,
    after: &[u8],
) -> Result<Option<ModelFaultKind>, AllocError>
    ensures { IfOk result (λ kind. kind ≡ kinds.early_kind scope.now line.now (lines_below line.now after.now)) }
{
    let misplaced = is_misplaced(alloc, scope, line, after)?;
    if is_too_long(line, after) {
        Ok(Some(ModelFaultKind::LineTooLong))
    } else if is_no_form(line) {
        Ok(Some(ModelFaultKind::NotALine))
    } else if misplaced {
        Ok(Some(ModelFaultKind::Misplaced))
    } else if is_misspelled(line) {
        Ok(Some(ModelFaultKind::BadName))
    } else if is_twice(scope, line) {
        Ok(Some(ModelFaultKind::Twice))
    } else if is_unknown(scope, line) {
        Ok(Some(ModelFaultKind::Unknown))
    } else if is_bad(scope, line) {
        Ok(Some(ModelFaultKind::BadValue))
    } else {
        Ok(None)
    }
}

/// The least of the other kinds that stands at the line, if one does. Whether its block or term is
/// unread is given.
#[tactic(auto, unfolding(crate::specs::Kinds::late_kind))]
pub fn late_kind(
    alloc: Global,
    scope: &Scope,
    line: &Line,
    after: &[u8],
    unread: bool,
) -> Result<Option<ModelFaultKind>, AllocError>
    requires { unread ≡ is_unread line.now (lines_below line.now after.now) }
    ensures { IfOk result (λ kind. kind ≡ kinds.late_kind scope.now line.now (lines_below line.now after.now)) }
{
    let empty = lacks_values(alloc, line, after)?;
    if unread {
        Ok(Some(ModelFaultKind::Syntax))
    } else if is_wrong(scope, line) {
        Ok(Some(ModelFaultKind::WrongDependency))
    } else if is_action(line) {
        Ok(Some(ModelFaultKind::Action))
    } else if empty {
        Ok(Some(ModelFaultKind::NoValues))
    } else if is_too_many(scope, line) {
        Ok(Some(ModelFaultKind::TooMany))
    } else if is_mixed(line) {
        Ok(Some(ModelFaultKind::MultipleRestrictable))
    } else {
        Ok(None)
    }
}
