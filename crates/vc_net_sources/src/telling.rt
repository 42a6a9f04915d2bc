//! What a source tells of its variable.

ghost use Rattle.std.specs.Prelude.{◌≡◌, option_map};
ghost use Rattle.vc_plan.specs.Gives.{entry_says, value_says};
ghost use Rattle.vc_plan_sources.specs.Changes.{entry_from};
ghost use Rattle.vc_net_sources.specs.Asking.{given_by};

use vc_plan::Mark;
use vc_value::Value;

/// What a source tells of its variable.
#[derive(Clone, Copy, Debug, PartialEq, Eq)]
pub enum Telling {
    Nothing,
    /// That the variable has the value.
    Value(Value),
    /// A value that the variable can't have: this contradicts.
    Outside,
}

/// What the user's value of the variable tells.
pub fn told_by_user(var: u32, value: Option<Value>) -> Telling
    ensures { given_by var result ≡ value_says var value }
{
    match value {
        Some(value) => Telling::Value(value),
        None => Telling::Nothing,
    }
}

/// What the variable's entry tells.
pub fn told_by_entry(var: u32, entry: Option<(Mark, u32, u32)>) -> Telling
    ensures { given_by var result ≡ entry_says var (option_map entry_from entry) }
{
    match entry {
        Some((Mark::Held(value), _, _)) => Telling::Value(value),
        Some((Mark::Outside, _, _)) => Telling::Outside,
        None => Telling::Nothing,
    }
}
