//! The command `check`.

ghost use Rattle.std.specs.Prelude.{◌≡◌, None, IfOk};
ghost use Rattle.vc_compile_plan.specs.Refusals.{size_fault};
ghost use Rattle.vc_app_check.specs.Checking as checking;
ghost use Rattle.vc_app_check.specs.Checking.{outside};
ghost use Rattle.vc_app_check.specs.Lines as lines;

use crate::counts::Counts;
use crate::lines::{counts_line, stop_line};
use crate::stops::stop_status;
use std::alloc::{AllocError, Global};
use vc_app_models::load_plan;
use vc_outside::{Failed, Shelf, Sink, write_all};
use vc_plan::Plan;
use vc_value::Word;

const NO_MEMORY: &[u8] = b"no memory\n";

/// Writes the line, and answers the status, or 5 where the sink fails.
pub fn say<S: Sink>(out: &mut S, line: &[u8], status: u8) -> u8
    ensures { checking.IsSaid (S.written out.old) (S.written out.new) (S.faults out.old) (S.faults out.new)
        line.now status result }
{
    match write_all(out, line) {
        Ok(()) => status,
        Err(Failed) => 5,
    }
}

// The line that tells a plan's counts.
fn plan_line(alloc: Global, plan: &Plan) -> Result<Word, AllocError>
    requires { size_fault plan.now ≡ None }
    ensures { IfOk result (λ line. line ≡ lines.counts_line (lines.counts_of plan.now)) }
{
    let counts = Counts::new(alloc, plan)?;
    counts_line(alloc, counts)
}

/// Reads the model of this name with its tables, and writes the counts of its plan, or the first thing that is wrong.
/// Answers the exit status.
pub fn check<F: Shelf, S: Sink>(alloc: Global, shelf: &mut F, name: &str, out: &mut S) -> u8
    ensures ends { checking.EndsCheck name.now
        (outside (F.files shelf.old) (F.faults shelf.old) (F.faults shelf.new) (S.written out.old)
        (S.written out.new) (S.faults out.old) (S.faults out.new))
        result }
{
    match load_plan(alloc, shelf, name) {
        Ok(plan) => match plan_line(alloc, &plan) {
            Ok(line) => say(out, line.bytes(), 0),
            Err(_) => say(out, NO_MEMORY, 8),
        },
        Err(stop) => match stop_line(alloc, name, &stop) {
            Ok(line) => say(out, line.bytes(), stop_status(&stop)),
            Err(_) => say(out, NO_MEMORY, 8),
        },
    }
}
