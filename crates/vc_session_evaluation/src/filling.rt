//! The sources of a stage: the user's values, and what is written so far.

ghost use Rattle.std.specs.Prelude.{◌≡◌, ◌^◌, ◌<◌, None, length, option_map, slice_index_or};
ghost use Rattle.vc_plan.specs.Entries.{entry_in, sources_in};
ghost use Rattle.vc_plan_sources.specs.Changes.{entry_from, with_entry, with_user};
ghost use Rattle.vc_net.specs.Differing.{SameBeside};
ghost use Rattle.vc_net.specs.Nets.{AreFor};
ghost use Rattle.vc_proc.specs.Overlays.{written_from};

use vc_plan::{Mark, Plan};
use vc_plan_sources::Sources;
use vc_plan_users::UserValues;
use vc_proc::{Overlay, Written};

/// Puts the user's values into the sources.
pub fn fill_users(plan: &Plan, users: &UserValues, sources: &mut Sources)
    requires vars { length plan.now.vars < 2 ^ 32 }
    requires users { length users.now.values ≡ length plan.now.vars }
    requires lengths { AreFor plan.now sources.old }
    ensures { sources.new ≡ record { user = users.now.values; written = sources.old.written } }
{
    for var in 0..plan.vars.len() {
        sources.set_user(var as u32, users.value(var as u32));
    }
}

/// The same where they differ from those that are there for these variables at most.
pub fn fill_users_at(plan: &Plan, users: &UserValues, vars: &[u32], sources: &mut Sources)
    requires users { length users.now.values ≡ length plan.now.vars }
    requires lengths { AreFor plan.now sources.old }
    requires beside { SameBeside vars.now sources.old.user users.now.values }
    ensures { sources.new ≡ record { user = users.now.values; written = sources.old.written } }
{
    let mut rest = vars;
    while let [var, more @ ..] = rest {
        fill_user(plan, users, *var, sources);
        rest = more;
    }
}

fn fill_user(plan: &Plan, users: &UserValues, var: u32, sources: &mut Sources)
    requires { AreFor plan.now sources.old }
    ensures { sources.new ≡ with_user sources.old var (slice_index_or users.now.values var None) }
{
    if (var as usize) < plan.vars.len() {
        sources.set_user(var, users.value(var));
    }
}

/// Puts what is written into the sources; it differs from what is there for these variables at most.
pub fn fill_entries_at(plan: &Plan, overlay: &Overlay, vars: &[u32], sources: &mut Sources)
    requires overlay { length overlay.now ≡ length plan.now.vars }
    requires lengths { AreFor plan.now sources.old }
    requires beside { SameBeside vars.now sources.old.written (sources_in overlay.now) }
    ensures { sources.new ≡ record { user = sources.old.user; written = sources_in overlay.now } }
{
    let mut rest = vars;
    while let [var, more @ ..] = rest {
        fill_entry(plan, overlay, *var, sources);
        rest = more;
    }
}

fn fill_entry(plan: &Plan, overlay: &Overlay, var: u32, sources: &mut Sources)
    requires { AreFor plan.now sources.old }
    ensures { sources.new ≡ with_entry sources.old var (slice_index_or (sources_in overlay.now) var None) }
{
    if (var as usize) < plan.vars.len() {
        sources.set_written(var, source_of(overlay.entry(var)));
    }
}

// What was written, as a source.
fn source_of(written: Option<Written>) -> Option<(Mark, u32, u32)>
    ensures { option_map entry_from result ≡ option_map entry_in (option_map written_from written) }
{
    match written {
        Some(entry) => Some((entry.mark, entry.proc, entry.statement)),
        None => None,
    }
}
