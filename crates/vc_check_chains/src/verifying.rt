//! Whether a chain file is accepted.

ghost use Rattle.std.specs.Prelude.{◌≡◌, IfOk};
ghost use Rattle.vc_plan.specs.Valid.{IsValid};
ghost use Rattle.vc_check.specs.Citing.{CanCheck};
ghost use Rattle.vc_check_chains.specs.Verifying as verified;

use crate::telling::{first_again, sources_to, sources_told};
use crate::verdict::Verdict;
use std::alloc::{AllocError, Global};
use vc_check::accepting::refused;
use vc_check::{refutes, settled};
use vc_plan::{Clash, Plan, Step};
use vc_plan_sources::Sources;
use vc_value::Listed;
use vc_wire_chains::ChainFile;
use vc_wire_chains_lines::Ending;

fn earlier(first: Option<u64>, second: Option<u64>) -> Option<u64>
    ensures { result ≡ verified.earlier first second }
{
    match (first, second) {
        (Some(number), Some(other)) if number <= other => Some(number),
        (Some(_), Some(other)) => Some(other),
        (Some(number), None) => Some(number),
        (None, other) => other,
    }
}

fn widened(number: Option<usize>) -> Option<u64>
    ensures { result ≡ number }
{
    match number {
        Some(number) => Some(number as u64),
        None => None,
    }
}

// The number of the first step that isn't accepted.
fn bad_step(
    alloc: Global,
    plan: &Plan,
    sources: &Sources,
    steps: &[Step],
) -> Result<Option<u64>, AllocError>
    requires { CanCheck plan.now }
    ensures { IfOk result (λ number. number ≡ verified.bad_step plan.now sources.now steps.now) }
{
    let refused = widened(refused(alloc, plan, sources, steps)?);
    let again = first_again(alloc, plan, steps)?;
    Ok(earlier(refused, again))
}

fn whole_verdict(
    alloc: Global,
    plan: &Plan,
    sources: &Sources,
    steps: &[Step],
    whole: bool,
) -> Result<Verdict, AllocError>
    requires { IsValid plan.now }
    ensures { IfOk result (λ verdict. verdict ≡ verified.whole_verdict plan.now sources.now steps.now whole) }
{
    if !whole {
        return Ok(Verdict::Accepted);
    }
    if settled(alloc, plan, sources, steps)? {
        Ok(Verdict::Accepted)
    } else {
        Ok(Verdict::MoreFollows)
    }
}

#[tactic(auto, using(vc_check::proofs::FollowingLemmas::can_check))]
fn steps_verdict(
    alloc: Global,
    plan: &Plan,
    sources: &Sources,
    steps: &[Step],
    whole: bool,
) -> Result<Verdict, AllocError>
    requires { IsValid plan.now }
    ensures { IfOk result (λ verdict. verdict ≡ verified.steps_verdict plan.now sources.now steps.now whole
        (verified.bad_step plan.now sources.now steps.now)) }
{
    match bad_step(alloc, plan, sources, steps)? {
        Some(number) => Ok(Verdict::BadStep(number)),
        None => whole_verdict(alloc, plan, sources, steps, whole),
    }
}

fn of_steps(alloc: Global, plan: &Plan, steps: &[Step], whole: bool) -> Result<Verdict, AllocError>
    requires { IsValid plan.now }
    ensures { IfOk result (λ verdict. verdict ≡ verified.of_steps plan.now steps.now whole) }
{
    let sources = sources_told(alloc, plan, steps)?;
    let verdict = steps_verdict(alloc, plan, &sources, steps, whole)?;
    drop(sources);
    Ok(verdict)
}

fn refuted_verdict(
    alloc: Global,
    plan: &Plan,
    sources: &Sources,
    clash: &Clash,
    whole: bool,
) -> Result<Verdict, AllocError>
    requires { IsValid plan.now }
    ensures { IfOk result (λ verdict. verdict ≡ verified.refuted_verdict plan.now sources.now clash.now whole) }
{
    if !refutes(alloc, plan, sources, clash)? {
        return Ok(Verdict::BadClash);
    }
    let verdict = whole_verdict(alloc, plan, sources, clash.steps.as_slice(), whole)?;
    Ok(verdict)
}

#[tactic(auto, using(vc_check::proofs::FollowingLemmas::can_check))]
fn clash_verdict(
    alloc: Global,
    plan: &Plan,
    sources: &Sources,
    clash: &Clash,
    whole: bool,
) -> Result<Verdict, AllocError>
    requires { IsValid plan.now }
    ensures { IfOk result (λ verdict. verdict ≡ verified.clash_verdict plan.now sources.now clash.now whole
        (verified.bad_step plan.now sources.now clash.now.steps)) }
{
    match bad_step(alloc, plan, sources, clash.steps.as_slice())? {
        Some(number) => Ok(Verdict::BadStep(number)),
        None => refuted_verdict(alloc, plan, sources, clash, whole),
    }
}

#[tactic(auto, using(vc_check::proofs::FollowingLemmas::can_check))]
fn of_clash(alloc: Global, plan: &Plan, clash: &Clash, whole: bool) -> Result<Verdict, AllocError>
    requires { IsValid plan.now }
    ensures { IfOk result (λ verdict. verdict ≡ verified.of_clash plan.now clash.now whole) }
{
    let sources = sources_to(
        alloc,
        plan,
        clash.steps.as_slice(),
        clash.culprit,
        clash.premises.as_slice(),
    )?;
    let verdict = clash_verdict(alloc, plan, &sources, clash, whole)?;
    drop(sources);
    Ok(verdict)
}

fn of_ending(
    alloc: Global,
    plan: &Plan,
    steps: Listed<Step>,
    ending: Ending,
    whole: bool,
) -> Result<Verdict, AllocError>
    requires { IsValid plan.now }
    ensures { IfOk result (λ verdict. verdict ≡ verified.of_clash plan.now (verified.clash_to steps ending) whole) }
{
    let Ending { culprit, premises } = ending;
    let clash = Clash {
        steps,
        culprit,
        premises,
    };
    let verdict = of_clash(alloc, plan, &clash, whole);
    drop(clash);
    verdict
}

fn of_list(
    alloc: Global,
    plan: &Plan,
    steps: Listed<Step>,
    whole: bool,
) -> Result<Verdict, AllocError>
    requires { IsValid plan.now }
    ensures { IfOk result (λ verdict. verdict ≡ verified.of_steps plan.now steps whole) }
{
    let verdict = of_steps(alloc, plan, steps.as_slice(), whole);
    drop(steps);
    verdict
}

/// What the checker says of the chain file.
pub fn verify_chain(alloc: Global, plan: &Plan, file: ChainFile) -> Result<Verdict, AllocError>
    requires { IsValid plan.now }
    ensures { IfOk result (λ verdict. verdict ≡ verified.verdict_of plan.now file) }
{
    let ChainFile {
        whole,
        steps,
        clash,
    } = file;
    match clash {
        Some(ending) => of_ending(alloc, plan, steps, ending, whole),
        None => of_list(alloc, plan, steps, whole),
    }
}
