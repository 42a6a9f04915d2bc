//! What is to be verified, from the files of a model and of a chain.

ghost use Rattle.std.specs.Prelude.{◌≤◌, IfOk, IfErr};
ghost use Rattle.vc_plan.specs.Valid.{IsValid};
ghost use Rattle.vc_app_verify.specs.Claims as claims;

use std::alloc::Global;
use vc_app_models::{ModelStop, load_plan, read_file};
use vc_outside::{FileFault, Shelf};
use vc_plan::Plan;
use vc_value::Word;

/// A plan, and the text of a chain file that claims something of it.
#[derive(Debug, Drop)]
pub struct Claim {
    pub(crate) plan: Plan,
    pub(crate) text: Word,
}

/// Why there is no claim.
#[derive(Debug, Drop)]
pub enum Stop {
    /// The model has no plan.
    Model(ModelStop),
    /// The chain file was not read.
    ChainUnread(FileFault),
}

/// Reads the model with its tables, then the chain file.
pub fn load_claim<F: Shelf>(
    alloc: Global,
    shelf: &mut F,
    model: &str,
    chain: &str,
) -> Result<Claim, Stop>
    ensures claim { IfOk result (claims.IsClaim (F.files shelf.old) model.now chain.now) }
    ensures valid { IfOk result (λ claim. IsValid claim.plan) }
    ensures stops { IfErr result (claims.IsNoClaim (F.files shelf.old) (F.faults shelf.old)
        (F.faults shelf.new) model.now chain.now) }
    ensures later { F.faults shelf.old ≤ F.faults shelf.new }
{
    let plan = match load_plan(alloc, shelf, model) {
        Ok(plan) => plan,
        Err(stop) => return Err(Stop::Model(stop)),
    };
    match read_file(alloc, shelf, chain) {
        Ok(text) => Ok(Claim { plan, text }),
        Err(fault) => Err(Stop::ChainUnread(fault)),
    }
}
