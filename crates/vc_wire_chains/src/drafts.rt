//! What the lines of a chain file have told so far.

ghost use Rattle.std.specs.Prelude.{◌≡◌, IfOk};
ghost use Rattle.vc_wire_chains_meanings.specs.Meant.{HasNumbers};
ghost use Rattle.vc_wire_chains.specs.Files as files;

use std::alloc::{AllocError, Global};
use vc_plan::{Plan, Step};
use vc_value::Listed;
use vc_wire_chains_lines::places::is_word;
use vc_wire_chains_lines::{Ending, read_ending, read_step};

/// What a chain file tells: steps, whether they are all that follows, and the clash to which they lead, if one is told.
#[derive(Debug, Drop)]
pub struct ChainFile {
    pub whole: bool,
    pub steps: Listed<Step>,
    pub clash: Option<Ending>,
}

/// What may come next.
#[derive(Clone, Copy, Debug, PartialEq, Eq)]
pub enum Stage {
    /// A step, a clash or the end.
    Stepping,
    /// The end alone.
    Clashed,
    /// Nothing.
    Ended,
}

/// What is told so far, and what may come next.
#[derive(Debug, Drop)]
pub struct Draft {
    pub stage: Stage,
    pub file: ChainFile,
}

/// A file of this kind of which no further line is read.
pub fn begun(alloc: Global, whole: bool) -> Draft
    ensures { result ≡ files.begun whole }
{
    Draft {
        stage: Stage::Stepping,
        file: ChainFile {
            whole,
            steps: Listed::new(alloc),
            clash: None,
        },
    }
}

/// The kind of a file by its first line: whether it tells all that follows.
pub fn kind_of(line: &[u8]) -> Option<bool>
    ensures { result ≡ files.kind_of line.now }
{
    if is_word(line, "chain") {
        Some(false)
    } else if is_word(line, "whole") {
        Some(true)
    } else {
        None
    }
}

fn with_step(draft: Draft, step: Step) -> Result<Draft, AllocError>
    ensures { IfOk result (λ grown. grown ≡ files.with_step draft step) }
{
    let mut grown = draft;
    grown.file.steps.push(step)?;
    Ok(grown)
}

fn with_clash(draft: Draft, ending: Ending) -> Draft
    ensures { result ≡ files.with_clash draft ending }
{
    let mut grown = draft;
    grown.stage = Stage::Clashed;
    grown.file.clash = Some(ending);
    grown
}

fn ended(draft: Draft) -> Draft
    ensures { result ≡ files.ended draft }
{
    let mut grown = draft;
    grown.stage = Stage::Ended;
    grown
}

fn at_end(draft: Draft, line: &[u8]) -> Option<Draft>
    ensures { result ≡ files.at_end draft line.now }
{
    if is_word(line, "end") {
        Some(ended(draft))
    } else {
        None
    }
}

fn at_clash(
    alloc: Global,
    plan: &Plan,
    draft: Draft,
    line: &[u8],
) -> Result<Option<Draft>, AllocError>
    requires { HasNumbers plan.now }
    ensures { IfOk result (λ grown. grown ≡ files.at_clash plan.now draft line.now) }
{
    if draft.file.whole {
        return Ok(None);
    }
    match read_ending(alloc, plan, line)? {
        Some(ending) => Ok(Some(with_clash(draft, ending))),
        None => Ok(None),
    }
}

fn behind_steps(
    alloc: Global,
    plan: &Plan,
    draft: Draft,
    line: &[u8],
) -> Result<Option<Draft>, AllocError>
    requires { HasNumbers plan.now }
    ensures { IfOk result (λ grown. grown ≡ files.behind_steps plan.now draft line.now) }
{
    if is_word(line, "end") {
        Ok(Some(ended(draft)))
    } else {
        at_clash(alloc, plan, draft, line)
    }
}

fn at_step(
    alloc: Global,
    plan: &Plan,
    draft: Draft,
    line: &[u8],
) -> Result<Option<Draft>, AllocError>
    requires { HasNumbers plan.now }
    ensures { IfOk result (λ grown. grown ≡ files.at_step plan.now draft line.now) }
{
    let number = draft.file.steps.len() as u64 + 1;
    match read_step(alloc, plan, number, line)? {
        Some(step) => {
            let grown = with_step(draft, step)?;
            Ok(Some(grown))
        }
        None => behind_steps(alloc, plan, draft, line),
    }
}

/// The draft with what the line tells; None where the line isn't allowed there.
pub fn next(
    alloc: Global,
    plan: &Plan,
    draft: Draft,
    line: &[u8],
) -> Result<Option<Draft>, AllocError>
    requires { HasNumbers plan.now }
    ensures { IfOk result (λ grown. grown ≡ files.next plan.now draft line.now) }
{
    match draft.stage {
        Stage::Stepping => at_step(alloc, plan, draft, line),
        Stage::Clashed => Ok(at_end(draft, line)),
        Stage::Ended => Ok(None),
    }
}

/// The file, if nothing more is wanting; else the number of the line that is.
pub fn finished(draft: Draft, number: u64) -> Result<ChainFile, u64>
    ensures { result ≡ files.finished draft number draft.stage }
{
    match draft.stage {
        Stage::Ended => Ok(draft.file),
        _ => Err(number),
    }
}
