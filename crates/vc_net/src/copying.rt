//! Sources that become others, where it is known for which variables they differ.

ghost use Rattle.std.specs.Prelude.{◌≡◌};
ghost use Rattle.vc_plan.specs.Sources.{entry_of, user_of};
ghost use Rattle.vc_plan_sources.specs.Changes.{with_entry, with_user};
ghost use Rattle.vc_net.specs.Differing.{SameBeside};
ghost use Rattle.vc_net.specs.Nets.{AreFor};

use vc_plan::Plan;
use vc_plan_sources::Sources;

/// Makes these the sources that the others are: the user's values differ for the first variables at most, and what is
/// written for the second.
pub fn copy_at(plan: &Plan, from: &Sources, touched: &[u32], written: &[u32], sources: &mut Sources)
    requires lengths { AreFor plan.now sources.old }
    requires others { AreFor plan.now from.now }
    requires touched { SameBeside touched.now sources.old.user from.now.user }
    requires written { SameBeside written.now sources.old.written from.now.written }
    ensures { sources.new ≡ from.now }
{
    copy_users(plan, from, touched, sources);
    copy_entries(plan, from, written, sources);
}

fn copy_users(plan: &Plan, from: &Sources, vars: &[u32], sources: &mut Sources)
    requires lengths { AreFor plan.now sources.old }
    requires others { AreFor plan.now from.now }
    requires beside { SameBeside vars.now sources.old.user from.now.user }
    ensures { sources.new ≡ record { user = from.now.user; written = sources.old.written } }
{
    let mut rest = vars;
    while let [var, more @ ..] = rest {
        copy_user(plan, from, *var, sources);
        rest = more;
    }
}

fn copy_user(plan: &Plan, from: &Sources, var: u32, sources: &mut Sources)
    requires { AreFor plan.now sources.old }
    ensures { sources.new ≡ with_user sources.old var (user_of from.now var) }
{
    if (var as usize) < plan.vars.len() {
        sources.set_user(var, from.user(var));
    }
}

fn copy_entries(plan: &Plan, from: &Sources, vars: &[u32], sources: &mut Sources)
    requires lengths { AreFor plan.now sources.old }
    requires others { AreFor plan.now from.now }
    requires beside { SameBeside vars.now sources.old.written from.now.written }
    ensures { sources.new ≡ record { user = sources.old.user; written = from.now.written } }
{
    let mut rest = vars;
    while let [var, more @ ..] = rest {
        copy_entry(plan, from, *var, sources);
        rest = more;
    }
}

fn copy_entry(plan: &Plan, from: &Sources, var: u32, sources: &mut Sources)
    requires { AreFor plan.now sources.old }
    ensures { sources.new ≡ with_entry sources.old var (entry_of from.now var) }
{
    if (var as usize) < plan.vars.len() {
        sources.set_written(var, from.written(var));
    }
}
