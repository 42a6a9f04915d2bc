//! What a session tells of its reasons.

ghost use Rattle.std.specs.Prelude.{◌≡◌, option_copied, IfOk};
ghost use Rattle.vc_session.specs.Explained.{IsShort, broken_net, chain_by, clash_by, log_by, settled_net};

use std::alloc::{AllocError, Global};
use vc_net::Net;
use vc_plan::{Atom, Clash, Step};
use vc_session_evaluation::Stages;
use vc_value::Listed;

/// The net of the last stage, if no stage is broken.
pub fn settled_net(stages: &Stages) -> Option<&Net>
    ensures { option_copied result ≡ settled_net stages.now }
{
    match stages.broken {
        Some(_) => None,
        None => {
            let nets = stages.nets.as_slice();
            nets.get(nets.len().saturating_sub(1))
        }
    }
}

/// The net of the first stage that is broken, if one is.
pub fn broken_net(stages: &Stages) -> Option<&Net>
    ensures { option_copied result ≡ broken_net stages.now }
{
    match stages.broken {
        Some(stage) => stages.nets.get(stage as usize),
        None => None,
    }
}

/// The chain of reasons for an atom that the last stage has inferred.
pub fn chain(alloc: Global, stages: &Stages, atom: Atom) -> Result<Option<Listed<Step>>, AllocError>
    requires { IsShort (settled_net stages.now) }
    ensures { IfOk result (λ chain. chain ≡ chain_by (settled_net stages.now) atom) }
{
    match settled_net(stages) {
        Some(net) => net.chain_of(alloc, atom),
        None => Ok(None),
    }
}

/// All steps of the last stage, if no stage is broken.
pub fn log(alloc: Global, stages: &Stages) -> Result<Option<Listed<Step>>, AllocError>
    ensures { IfOk result (λ log. log ≡ log_by (settled_net stages.now)) }
{
    match settled_net(stages) {
        Some(net) => Ok(Some(net.log(alloc)?)),
        None => Ok(None),
    }
}

/// What contradicts in the first stage that is broken, if one is.
pub fn clash(alloc: Global, stages: &Stages) -> Result<Option<Clash>, AllocError>
    requires { IsShort (broken_net stages.now) }
    ensures { IfOk result (λ clash. clash ≡ clash_by (broken_net stages.now)) }
{
    match broken_net(stages) {
        Some(net) => net.clash(alloc),
        None => Ok(None),
    }
}
