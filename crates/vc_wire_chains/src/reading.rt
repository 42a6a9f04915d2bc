//! A chain file, read whole.

ghost use Rattle.std.specs.Prelude.{◌≡◌, IfOk};
ghost use Rattle.vc_plan.specs.Valid.{IsValid};
ghost use Rattle.vc_wire_chains_meanings.specs.Meant.{HasNumbers};
ghost use Rattle.vc_wire_chains.specs.Files as files;
ghost use Rattle.vc_wire_chains.specs.Reading as told;

use crate::drafts::{ChainFile, Draft, begun, finished, kind_of, next};
use crate::lines::first_line;
use std::alloc::{AllocError, Global};
use vc_plan::Plan;

/// Why a text is read as no chain file.
#[derive(Clone, Copy, Debug, PartialEq, Eq)]
pub enum ChainFault {
    /// The line of this number, from 1, is the first that isn't allowed; behind the last one where `end` is wanting.
    NotAChain { line: u64 },
    /// Memory is wanting.
    OutOfMemory,
}

fn read_from(
    alloc: Global,
    plan: &Plan,
    start: Draft,
    text: &[u8],
) -> Result<Result<ChainFile, u64>, AllocError>
    requires { HasNumbers plan.now }
    ensures { IfOk result (λ read. read ≡ files.read_from plan.now start 2 (files.lines_of text.now)) }
{
    let mut draft = start;
    let mut number = 2;
    let mut rest = text;
    while !rest.is_empty() {
        let (line, more) = first_line(rest);
        match next(alloc, plan, draft, line)? {
            Some(grown) => draft = grown,
            None => return Ok(Err(number)),
        }
        number += 1;
        rest = more;
    }
    Ok(finished(draft, number))
}

fn read_kind(
    alloc: Global,
    plan: &Plan,
    kind: Option<bool>,
    text: &[u8],
) -> Result<Result<ChainFile, u64>, AllocError>
    requires { HasNumbers plan.now }
    ensures { IfOk result (λ read. read ≡ files.read_kind plan.now kind (files.lines_of text.now)) }
{
    match kind {
        Some(whole) => read_from(alloc, plan, begun(alloc, whole), text),
        None => Ok(Err(1)),
    }
}

fn read(alloc: Global, plan: &Plan, text: &[u8]) -> Result<Result<ChainFile, u64>, AllocError>
    requires { HasNumbers plan.now }
    ensures { IfOk result (λ read. read ≡ files.chain_of plan.now text.now) }
{
    if text.is_empty() {
        return Ok(Err(1));
    }
    let (head, rest) = first_line(text);
    read_kind(alloc, plan, kind_of(head), rest)
}

/// The chain file that the text spells in the plan.
#[tactic(auto, using(vc_wire_chains_meanings::proofs::NumberLemmas::have_numbers))]
pub fn read_chain(alloc: Global, plan: &Plan, text: &[u8]) -> Result<ChainFile, ChainFault>
    requires { IsValid plan.now }
    ensures { told.Answers (files.chain_of plan.now text.now) result }
{
    match read(alloc, plan, text) {
        Ok(Ok(file)) => Ok(file),
        Ok(Err(line)) => Err(ChainFault::NotAChain { line }),
        Err(_) => Err(ChainFault::OutOfMemory),
    }
}
