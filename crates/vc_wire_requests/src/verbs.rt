//! The words by which requests begin.

ghost use Rattle.std.specs.Prelude.{◌≡◌};
ghost use Rattle.vc_wire_requests.specs.Verbs as verbs;

use vc_value::equals_ignoring_case;

/// What is asked of a session.
#[derive(Clone, Copy, Debug, PartialEq, Eq)]
pub enum OfSession {
    Start,
    Close,
    Show,
    Conflict,
    Log,
    Bill,
    Routing,
}

/// What is done with a characteristic, or asked of it.
#[derive(Clone, Copy, Debug, PartialEq, Eq)]
pub enum OfCharacteristic {
    Retract,
    Why,
}

/// What is done with a value of a characteristic, or asked of it.
#[derive(Clone, Copy, Debug, PartialEq, Eq)]
pub enum OfValue {
    Set,
    Add,
    Drop,
    WhyNot,
}

/// What is done with a session and what is saved under a name.
#[derive(Clone, Copy, Debug, PartialEq, Eq)]
pub enum OfSaved {
    Save,
    Load,
}

/// What a request wants, by what follows its word.
#[derive(Clone, Copy, Debug, PartialEq, Eq)]
pub enum Verb {
    Session(OfSession),
    Characteristic(OfCharacteristic),
    Value(OfValue),
    Saved(OfSaved),
    Forget,
}

impl OfSession {
    /// The word, in lower case.
    pub fn text(self) -> &'static str
        ensures { result.now ≡ verbs.session_text self }
    {
        match self {
            OfSession::Start => "open",
            OfSession::Close => "close",
            OfSession::Show => "show",
            OfSession::Conflict => "conflict",
            OfSession::Log => "log",
            OfSession::Bill => "bill",
            OfSession::Routing => "routing",
        }
    }
}

impl OfCharacteristic {
    /// The word, in lower case.
    pub fn text(self) -> &'static str
        ensures { result.now ≡ verbs.characteristic_text self }
    {
        match self {
            OfCharacteristic::Retract => "retract",
            OfCharacteristic::Why => "why",
        }
    }
}

impl OfValue {
    /// The word, in lower case.
    pub fn text(self) -> &'static str
        ensures { result.now ≡ verbs.value_text self }
    {
        match self {
            OfValue::Set => "set",
            OfValue::Add => "add",
            OfValue::Drop => "drop",
            OfValue::WhyNot => "whynot",
        }
    }
}

impl OfSaved {
    /// The word, in lower case.
    pub fn text(self) -> &'static str
        ensures { result.now ≡ verbs.saved_text self }
    {
        match self {
            OfSaved::Save => "save",
            OfSaved::Load => "load",
        }
    }
}

impl Verb {
    /// The word, in lower case.
    pub fn text(self) -> &'static str
        ensures { result.now ≡ verbs.text_of self }
    {
        match self {
            Verb::Session(asked) => asked.text(),
            Verb::Characteristic(named) => named.text(),
            Verb::Value(done) => done.text(),
            Verb::Saved(kept) => kept.text(),
            Verb::Forget => "forget",
        }
    }
}

// Whether the word is the verb's, in either case.
fn is_verb(word: &[u8], verb: Verb) -> bool
    ensures { result ≡ verbs.is_verb word.now verb }
{
    equals_ignoring_case(word, verb.text().as_bytes())
}

fn session_verb(word: &[u8]) -> Option<OfSession>
    ensures { result ≡ verbs.session_verb word.now }
{
    if is_verb(word, Verb::Session(OfSession::Start)) {
        Some(OfSession::Start)
    } else if is_verb(word, Verb::Session(OfSession::Close)) {
        Some(OfSession::Close)
    } else if is_verb(word, Verb::Session(OfSession::Show)) {
        Some(OfSession::Show)
    } else if is_verb(word, Verb::Session(OfSession::Conflict)) {
        Some(OfSession::Conflict)
    } else if is_verb(word, Verb::Session(OfSession::Log)) {
        Some(OfSession::Log)
    } else if is_verb(word, Verb::Session(OfSession::Bill)) {
        Some(OfSession::Bill)
    } else if is_verb(word, Verb::Session(OfSession::Routing)) {
        Some(OfSession::Routing)
    } else {
        None
    }
}

fn characteristic_verb(word: &[u8]) -> Option<OfCharacteristic>
    ensures { result ≡ verbs.characteristic_verb word.now }
{
    if is_verb(word, Verb::Characteristic(OfCharacteristic::Retract)) {
        Some(OfCharacteristic::Retract)
    } else if is_verb(word, Verb::Characteristic(OfCharacteristic::Why)) {
        Some(OfCharacteristic::Why)
    } else {
        None
    }
}

fn value_verb(word: &[u8]) -> Option<OfValue>
    ensures { result ≡ verbs.value_verb word.now }
{
    if is_verb(word, Verb::Value(OfValue::Set)) {
        Some(OfValue::Set)
    } else if is_verb(word, Verb::Value(OfValue::Add)) {
        Some(OfValue::Add)
    } else if is_verb(word, Verb::Value(OfValue::Drop)) {
        Some(OfValue::Drop)
    } else if is_verb(word, Verb::Value(OfValue::WhyNot)) {
        Some(OfValue::WhyNot)
    } else {
        None
    }
}

fn saved_verb(word: &[u8]) -> Option<OfSaved>
    ensures { result ≡ verbs.saved_verb word.now }
{
    if is_verb(word, Verb::Saved(OfSaved::Save)) {
        Some(OfSaved::Save)
    } else if is_verb(word, Verb::Saved(OfSaved::Load)) {
        Some(OfSaved::Load)
    } else {
        None
    }
}

// The verb of what is saved, in either case.
fn keeping_verb(word: &[u8]) -> Option<Verb>
    ensures { result ≡ verbs.keeping_verb word.now }
{
    if let Some(kept) = saved_verb(word) {
        return Some(Verb::Saved(kept));
    }
    if is_verb(word, Verb::Forget) {
        return Some(Verb::Forget);
    }
    None
}

/// The verb that the word is, in either case.
pub fn verb_of(word: &[u8]) -> Option<Verb>
    ensures { result ≡ verbs.verb_of word.now }
{
    if let Some(asked) = session_verb(word) {
        return Some(Verb::Session(asked));
    }
    if let Some(named) = characteristic_verb(word) {
        return Some(Verb::Characteristic(named));
    }
    if let Some(done) = value_verb(word) {
        return Some(Verb::Value(done));
    }
    keeping_verb(word)
}
