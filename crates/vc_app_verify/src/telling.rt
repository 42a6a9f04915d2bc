//! What is told of a claim, or of what stops it: a line, and the exit status.

ghost use Rattle.std.specs.Prelude.{◌≡◌, IfOk};
ghost use Rattle.vc_plan.specs.Valid.{IsValid};
ghost use Rattle.vc_check_chains.specs.Verifying.{verdict_of};
ghost use Rattle.vc_app_verify.specs.Telling as telling;

use crate::claims::{Claim, Stop};
use std::alloc::{AllocError, Global};
use vc_app_check::lines::{file_line, stop_line};
use vc_app_check::stops::{file_status, stop_status};
use vc_app_models::ModelStop;
use vc_check_chains::{Verdict, verdict_text, verify_chain};
use vc_outside::FileFault;
use vc_plan::Plan;
use vc_value::Word;
use vc_wire_chains::{ChainFault, ChainFile, read_chain};

/// The line to be written, and the exit status.
#[derive(Debug, Drop)]
pub struct Told {
    pub line: Word,
    pub status: u8,
}

fn verdict_status(verdict: Verdict) -> u8
    ensures { result ≡ telling.verdict_status verdict }
{
    match verdict {
        Verdict::Accepted => 0,
        Verdict::BadStep(_) | Verdict::BadClash | Verdict::MoreFollows => 9,
    }
}

fn verdict_told(alloc: Global, verdict: Verdict) -> Result<Told, AllocError>
    ensures { IfOk result (λ told. told ≡ telling.verdict_told verdict) }
{
    let mut line = verdict_text(alloc, verdict)?;
    line.append_text("\n")?;
    Ok(Told {
        line,
        status: verdict_status(verdict),
    })
}

// That the line of this number is the first that a chain file hasn't.
fn no_chain_told(alloc: Global, number: u64) -> Result<Told, AllocError>
    ensures { IfOk result (λ told. told ≡ telling.no_chain_told number) }
{
    let text = format!(in alloc; "not a chain: line {number}\n")?;
    Ok(Told {
        line: Word::from_bytes(alloc, text.as_bytes())?,
        status: 10,
    })
}

fn chain_told(alloc: Global, plan: &Plan, file: ChainFile) -> Result<Told, AllocError>
    requires { IsValid plan.now }
    ensures { IfOk result (λ told. told ≡ telling.verdict_told (verdict_of plan.now file)) }
{
    let verdict = verify_chain(alloc, plan, file)?;
    let told = verdict_told(alloc, verdict)?;
    Ok(told)
}

/// What is told of a claim: the checker's verdict, or the first line that makes its text no chain file.
pub fn claim_told(alloc: Global, claim: &Claim) -> Result<Told, AllocError>
    requires { IsValid claim.now.plan }
    ensures { IfOk result (λ told. told ≡ telling.claim_told claim.now) }
{
    match read_chain(alloc, &claim.plan, claim.text.bytes()) {
        Ok(file) => chain_told(alloc, &claim.plan, file),
        Err(ChainFault::NotAChain { line }) => no_chain_told(alloc, line),
        Err(ChainFault::OutOfMemory) => Err(AllocError),
    }
}

fn model_told(alloc: Global, name: &str, stop: &ModelStop) -> Result<Told, AllocError>
    ensures { IfOk result (λ told. told ≡ telling.model_told name.now stop.now) }
{
    Ok(Told {
        line: stop_line(alloc, name, stop)?,
        status: stop_status(stop),
    })
}

fn file_told(alloc: Global, name: &str, fault: FileFault) -> Result<Told, AllocError>
    ensures { IfOk result (λ told. told ≡ telling.file_told name.now fault) }
{
    Ok(Told {
        line: file_line(alloc, name.as_bytes(), fault)?,
        status: file_status(fault),
    })
}

/// What is told where there is no claim of the model and the chain file of these names.
pub fn stop_told(alloc: Global, model: &str, chain: &str, stop: &Stop) -> Result<Told, AllocError>
    ensures { IfOk result (λ told. told ≡ telling.stop_told model.now chain.now stop.now) }
{
    match stop {
        Stop::Model(stop) => model_told(alloc, model, stop),
        Stop::ChainUnread(fault) => file_told(alloc, chain, *fault),
    }
}
