//! Edits of what a user chose.

ghost use Rattle.std.specs.Prelude.{◌≡◌, ◌<◌, length};
ghost use Rattle.std.specs.List.{list_any};
ghost use Rattle.vc_session.specs.Edits as edits;

use vc_plan::Named;
use vc_plan_users::{SetText, UserValues};
use vc_rule_yield::atoms::same_value;
use vc_value::Value;

fn any_held(texts: &[SetText]) -> bool
    ensures { result ≡ list_any (λ t. t.held) texts.now }
{
    texts.iter().any(|text| text.held)
}

/// Whether the user has a value there, or a text in the set.
pub fn has_choice(users: &UserValues, named: Named) -> bool
    ensures { result ≡ edits.has_choice users.now named }
{
    match named {
        Named::Var(var) => users.value(var).is_some(),
        Named::Set(set) => any_held(users.texts(set)),
    }
}

/// Whether the user has this value there.
pub fn has_chosen(users: &UserValues, named: Named, value: Value) -> bool
    ensures { result ≡ edits.has_chosen users.now named value }
{
    match named {
        Named::Var(var) => match users.value(var) {
            Some(chosen) => same_value(value, chosen),
            None => false,
        },
        Named::Set(set) => match value {
            Value::Text(text) => users.holds(set, text),
            Value::Num(_) => false,
        },
    }
}

/// Gives it the value, a set beside those that it holds.
pub fn give(users: &mut UserValues, named: Named, value: Value)
    requires { edits.is_there users.old named }
    ensures { users.new ≡ edits.given users.old named value }
{
    match named {
        Named::Var(var) => users.put(var, Some(value)),
        Named::Set(set) => match value {
            Value::Text(text) => users.put_text(set, text, true),
            Value::Num(_) => {}
        },
    }
}

/// Gives it the value, a set instead of those that it holds.
pub fn give_alone(users: &mut UserValues, named: Named, value: Value)
    requires { edits.is_there users.old named }
    ensures { users.new ≡ edits.given_alone users.old named value }
{
    take(users, named);
    give(users, named, value);
}

/// Takes all of the user's values there back.
pub fn take(users: &mut UserValues, named: Named)
    requires { edits.is_there users.old named }
    ensures { users.new ≡ edits.taken users.old named }
{
    match named {
        Named::Var(var) => users.put(var, None),
        Named::Set(set) => users.clear(set),
    }
}

/// Takes this value back.
pub fn take_value(users: &mut UserValues, named: Named, value: Value)
    requires { edits.is_there users.old named }
    ensures { users.new ≡ edits.taken_value users.old named value }
{
    match named {
        Named::Var(var) => users.put(var, None),
        Named::Set(set) => match value {
            Value::Text(text) => users.put_text(set, text, false),
            Value::Num(_) => {}
        },
    }
}
