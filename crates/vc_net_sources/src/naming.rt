//! Who is named as having given an atom, and who is to blame for a clash.

ghost use Rattle.std.specs.Prelude.{◌≡◌, option_map};
ghost use Rattle.vc_plan_sources.specs.Changes.{entry_from};
ghost use Rattle.vc_plan_blame.specs.Blame.{culprit_giving, culprit_wrote};
ghost use Rattle.vc_net_agenda.specs.Agendas.{meant};
ghost use Rattle.vc_net_sources.specs.Asking.{origin_by, origin_of};

use vc_net_agenda::Giver;
use vc_plan::{Culprit, Mark, Origin};
use vc_plan_sources::Sources;

/// The origin of what the giver concludes.
pub fn origin_of(sources: &Sources, giver: Giver) -> Origin
    ensures { result ≡ origin_of sources.now (meant giver) }
{
    match giver {
        Giver::Rule(rule) => Origin::Rule(rule),
        Giver::User(_) => Origin::User,
        Giver::Entry(var) => origin_by(sources.written(var)),
    }
}

/// Whom it blames where the giver clashes.
pub fn culprit_of(sources: &Sources, giver: Giver) -> Option<Culprit>
    ensures { result ≡ culprit_giving sources.now (meant giver) }
{
    match giver {
        Giver::Rule(rule) => Some(Culprit::Rule(rule)),
        Giver::User(_) => None,
        Giver::Entry(var) => culprit_by(sources.written(var)),
    }
}

fn origin_by(entry: Option<(Mark, u32, u32)>) -> Origin
    ensures { result ≡ origin_by (option_map entry_from entry) }
{
    match entry {
        Some((_, proc, statement)) => Origin::Written { proc, statement },
        None => Origin::User,
    }
}

fn culprit_by(entry: Option<(Mark, u32, u32)>) -> Option<Culprit>
    ensures { result ≡ culprit_wrote (option_map entry_from entry) }
{
    match entry {
        Some((_, proc, statement)) => Some(Culprit::Written { proc, statement }),
        None => None,
    }
}
