//! Givers, and which of them an origin means.

ghost use Rattle.std.specs.Prelude.{◌≡◌, option_map};
ghost use Rattle.vc_plan_reasons.specs.Checking.{giver_from, is_by, var_of};
ghost use Rattle.vc_plan_sources.specs.Changes.{entry_from};
ghost use Rattle.vc_check_givers.specs.Givers.{giver_meant, written_by};

use vc_plan::{Atom, Mark, Origin};
use vc_plan_sources::Sources;

/// What gives atoms: a rule by its number, the user's value of a variable, or the entry of a variable.
#[derive(Clone, Copy, Debug, PartialEq, Eq)]
pub enum Giver {
    Rule(u32),
    User(u32),
    Entry(u32),
}

fn var_of(atom: Atom) -> Option<u32>
    ensures { result ≡ var_of atom }
{
    match atom {
        Atom::Here(_) => None,
        Atom::Out(var, _) => Some(var),
        Atom::Is(var, _) => Some(var),
    }
}

/// Whether the entry is by this statement.
pub fn is_by(procedure: u32, statement: u32, entry: Option<(Mark, u32, u32)>) -> bool
    ensures { result ≡ is_by procedure statement (option_map entry_from entry) }
{
    match entry {
        Some((_, by, at)) => by == procedure && at == statement,
        None => false,
    }
}

fn written_by(sources: &Sources, procedure: u32, statement: u32, var: u32) -> Option<Giver>
    ensures { option_map giver_meant result ≡ written_by sources.now procedure statement var }
{
    if is_by(procedure, statement, sources.written(var)) {
        Some(Giver::Entry(var))
    } else {
        None
    }
}

fn giver_from(sources: &Sources, origin: Origin, var: Option<u32>) -> Option<Giver>
    ensures { option_map giver_meant result ≡ giver_from sources.now origin var }
{
    match origin {
        Origin::Rule(rule) => Some(Giver::Rule(rule)),
        Origin::User => match var {
            Some(var) => Some(Giver::User(var)),
            None => None,
        },
        Origin::Written { proc, statement } => match var {
            Some(var) => written_by(sources, proc, statement, var),
            None => None,
        },
    }
}

/// The giver that is meant by the origin of an atom, if there is one.
pub fn giver_of(sources: &Sources, origin: Origin, atom: Atom) -> Option<Giver>
    ensures { option_map giver_meant result ≡ giver_from sources.now origin (var_of atom) }
{
    giver_from(sources, origin, var_of(atom))
}
