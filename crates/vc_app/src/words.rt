//! What the words of the command line ask for.

ghost use Rattle.std.specs.Prelude.{ℕ, List, slice_get, string_bytes, Option, IfSome, IfNone};
ghost use Rattle.std.specs.Option.{option_map};
ghost use Rattle.vc_app.specs.Asked as asked;

use vc_app_gen::families_asked;
use vc_app_run::loading::word_at;
use vc_app_serve::links_asked;

/// A model to serve, the address at which links are awaited, how many, and the file that keeps what is saved, if one is
/// named.
#[derive(Clone, Copy)]
pub struct Serving<'a> {
    pub(crate) model: &'a str,
    pub(crate) address: &'a str,
    pub(crate) count: u32,
    pub(crate) keep_file: Option<&'a str>,
}

/// What the words ask for.
#[derive(Clone, Copy)]
pub enum Command<'a> {
    /// To check this model.
    Check(&'a str),
    /// To verify a chain file by a model.
    Verify { model: &'a str, chain: &'a str },
    /// To make so many families of models.
    Gen(u32),
    /// To serve links.
    Serve(Serving<'a>),
    /// None of these: a run, or nothing that there is.
    Other,
}

// The name of the model that the words ask to check, if they do.
fn checked_name(words: &[String]) -> Option<&str>
    ensures some { IfSome result (λ name. asked.IsCheck words.now name.now) }
    ensures none { IfNone result (asked.IsNoCheck words.now) }
{
    match words {
        [command, model] if command.as_str() == "check" => Some(model.as_str()),
        _ => None,
    }
}

// The names of the model and of the chain file that the words ask to verify, if they do.
fn verified_names(words: &[String]) -> Option<(&str, &str)>
    ensures some { IfSome result (λ names. asked.IsVerify words.now names.0.now names.1.now) }
    ensures none { IfNone result (asked.IsNoVerify words.now) }
{
    match words {
        [command, model, chain] if command.as_str() == "verify" => {
            Some((model.as_str(), chain.as_str()))
        }
        _ => None,
    }
}

// The word that stands behind `gen`, if one does and no other.
fn number_of(words: &[String]) -> Option<&str>
    ensures some { IfSome result (λ number. asked.IsGenWith words.now number.now) }
    ensures none { IfNone result ((number : List ℕ) → ¬ asked.IsGenWith words.now number) }
{
    match words {
        [command, number] if command.as_str() == "gen" => Some(number.as_str()),
        _ => None,
    }
}

// How many families of models the words ask to make, if they do.
fn families_of(words: &[String]) -> Option<u32>
    ensures some { IfSome result (asked.IsGen words.now) }
    ensures none { IfNone result (asked.IsNoGen words.now) }
{
    match number_of(words) {
        Some(number) => families_asked(number.as_bytes()),
        None => None,
    }
}

// The model, the address and the word that stand behind `serve`, if they do and at most one word more.
fn serve_words(words: &[String]) -> Option<(&str, &str, &str)>
    ensures some { IfSome result (λ named. asked.IsServeWith words.now named.0.now named.1.now named.2.now
        (option_map string_bytes (slice_get words.now 4))) }
    ensures none { IfNone result ((model address number : List ℕ) (keep_file : Option (List ℕ))
        → ¬ asked.IsServeWith words.now model address number keep_file) }
{
    match words {
        [command, model, address, number, more @ ..]
            if command.as_str() == "serve" && more.len() < 2 => {
            Some((model.as_str(), address.as_str(), number.as_str()))
        }
        _ => None,
    }
}

// What the words ask to serve links by, if they do.
fn service_of(words: &[String]) -> Option<Serving<'_>>
    ensures some { IfSome result (λ serving. asked.IsServe words.now (asked.service_by serving)) }
    ensures none { IfNone result (asked.IsNoServe words.now) }
{
    match serve_words(words) {
        Some((model, address, number)) => match links_asked(number.as_bytes()) {
            Some(count) => Some(Serving {
                model,
                address,
                count,
                keep_file: word_at(words, 4),
            }),
            None => None,
        },
        None => None,
    }
}

/// What the words ask for, which stand behind the program's name.
pub fn command_of(words: &[String]) -> Command<'_>
    ensures { asked.Asks words.now result }
{
    if let Some(model) = checked_name(words) {
        return Command::Check(model);
    }
    if let Some((model, chain)) = verified_names(words) {
        return Command::Verify { model, chain };
    }
    if let Some(count) = families_of(words) {
        return Command::Gen(count);
    }
    match service_of(words) {
        Some(serving) => Command::Serve(serving),
        None => Command::Other,
    }
}
