//! What is said where not all links were served.

ghost use Rattle.vc_app_check.specs.Checking.{IsSaid};
ghost use Rattle.vc_app_check.specs.Lines as lines;
ghost use Rattle.vc_app_check.specs.Statuses as statuses;
ghost use Rattle.vc_app_serve.specs.Telling as telling;
ghost use Rattle.vc_app_serve.specs.declared.stop.Stop.TheVariants as stops;

use crate::stop::Stop;
use std::alloc::Global;
use vc_app_check::checking::say;
use vc_app_check::lines::stop_line;
use vc_app_check::stops::stop_status;
use vc_app_models::ModelStop;
use vc_outside::{KeepFault, Sink};

// Says why the model of this name has no plan, or that there is no memory for that.
fn say_model<S: Sink>(alloc: Global, out: &mut S, model: &str, stop: &ModelStop) -> u8
    ensures { telling.IsToldOf model.now (stops.Model stop.now) (S.written out.old) (S.written out.new)
        (S.faults out.old) (S.faults out.new) result }
{
    match stop_line(alloc, model, stop) {
        Ok(line) => say(out, line.bytes(), stop_status(stop)),
        Err(_) => say(out, b"no memory\n", 8),
    }
}

// Says why the keeper couldn't be begun.
fn say_keeper<S: Sink>(out: &mut S, fault: KeepFault) -> u8
    ensures { IsSaid (S.written out.old) (S.written out.new) (S.faults out.old) (S.faults out.new)
        (lines.keeper_line fault) (statuses.keeper_status fault) result }
{
    match fault {
        KeepFault::Failed => say(out, b"keeper fault\n", 7),
        KeepFault::OutOfMemory => say(out, b"no memory\n", 8),
    }
}

/// Says why not all links were served, and answers the exit status. No memory is taken but for a model's line.
pub fn say_stop<S: Sink>(alloc: Global, out: &mut S, model: &str, stop: &Stop) -> u8
    ensures { telling.IsToldOf model.now stop.now (S.written out.old) (S.written out.new) (S.faults out.old)
        (S.faults out.new) result }
{
    match stop {
        Stop::Model(stop) => say_model(alloc, out, model, stop),
        Stop::Keeper(fault) => say_keeper(out, *fault),
        Stop::OutOfMemory => say(out, b"no memory\n", 8),
        Stop::Door => say(out, b"door fault\n", 6),
    }
}
