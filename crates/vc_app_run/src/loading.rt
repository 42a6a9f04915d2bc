//! What a run is to do: a plan, and a script's text.

ghost use Rattle.std.specs.Prelude.{◌≡◌, ◌≤◌, slice_get, string_bytes, IfOk, IfErr};
ghost use Rattle.std.specs.Option.{option_map};
ghost use Rattle.vc_plan.specs.Valid.{IsValid};
ghost use Rattle.vc_app_run.specs.Endings as endings;

use crate::ending::Stop;
use std::alloc::Global;
use vc_app_models::{load_plan, read_file};
use vc_outside::Shelf;
use vc_plan::Plan;
use vc_value::Word;

/// What there is to do: a plan, and the text of a script.
#[derive(Debug, Drop)]
pub struct Job {
    pub(crate) plan: Plan,
    pub(crate) script: Word,
}

/// Reads the model with its tables, then the script.
fn load_named<F: Shelf>(
    alloc: Global,
    shelf: &mut F,
    model: &str,
    script: &str,
) -> Result<Job, Stop>
    ensures job { IfOk result (endings.LoadsJob (F.files shelf.old) model.now script.now) }
    ensures valid { IfOk result (λ job. IsValid job.plan) }
    ensures stops { IfErr result (endings.StopsJob (F.files shelf.old) (F.faults shelf.old)
        (F.faults shelf.new) model.now script.now) }
    ensures later { F.faults shelf.old ≤ F.faults shelf.new }
{
    let plan = match load_plan(alloc, shelf, model) {
        Ok(plan) => plan,
        Err(stop) => return Err(Stop::Model(stop)),
    };
    match read_file(alloc, shelf, script) {
        Ok(script) => Ok(Job { plan, script }),
        Err(fault) => Err(Stop::ScriptUnread(fault)),
    }
}

/// The job that the words ask for.
pub fn load_job<F: Shelf>(alloc: Global, shelf: &mut F, words: &[String]) -> Result<Job, Stop>
    ensures job { IfOk result (endings.LoadsRun words.now (F.files shelf.old)) }
    ensures valid { IfOk result (λ job. IsValid job.plan) }
    ensures causes { IfErr result (endings.Causes words.now (F.files shelf.old) (F.faults shelf.old)
        (F.faults shelf.new)) }
    ensures later { F.faults shelf.old ≤ F.faults shelf.new }
{
    match words {
        [command, model, script, more @ ..] if command.as_str() == "run" && more.len() < 2 => {
            load_named(alloc, shelf, model.as_str(), script.as_str())
        }
        _ => Err(Stop::Usage),
    }
}

/// The word at this place, if there is one.
pub fn word_at(words: &[String], place: usize) -> Option<&str>
    ensures { option_map (λ word. word.now) result ≡ option_map string_bytes (slice_get words.now place) }
{
    match words.get(place) {
        Some(word) => Some(word.as_str()),
        None => None,
    }
}

/// The name of the file that keeps what a run saves, if the words name one.
pub fn keep_file(words: &[String]) -> Option<&str>
    ensures { option_map (λ name. name.now) result ≡ endings.keep_file words.now }
{
    word_at(words, 3)
}
