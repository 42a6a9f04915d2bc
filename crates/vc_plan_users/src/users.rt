//! Of each variable the user's value, and of each set its listed texts with what is held.

ghost use Rattle.std.specs.Prelude.{◌≡◌, ◌==◌, map, None, IfOk};
ghost use Rattle.std.specs.List.{list_any};
ghost use Rattle.vc_plan.specs.Domains.{domain_of_set, texts_in};
ghost use Rattle.vc_plan_users.specs.Choosing.{held_texts, let_go, listed_at, marked, not_held};

use std::alloc::{AllocError, Global};
use std::marker::Model;
use vc_plan::{Plan, TextSet};
use vc_value::{Domain, Listed, Value};

/// A text of a set's list, and whether the user's set holds it.
#[derive(Clone, Copy, Debug, PartialEq, Eq)]
pub struct SetText {
    pub text: u32,
    pub held: bool,
}

/// Of each variable of a plan the user's value, if there is one, and of each set which of its
/// listed texts it holds. All memory is taken at `new`.
#[derive(Drop)]
pub struct UserValues {
    values: Listed<Option<Value>>,
    sets: Vec<Listed<SetText>>,
}

impl Model for UserValues {
    ghost use Rattle.vc_plan_users.specs.Choosing.{Chosen};

    ghost Value = { Chosen };

    ghost view = { λ u. record { values = u.values; sets = u.sets.items } };
}

impl UserValues {
    ghost use Rattle.std.specs.Prelude.{◌≡◌, ◌<◌, length, slice_index_or, IfOk, None};
    ghost use Rattle.vc_plan.specs.Evaluate.{holds};
    ghost use Rattle.vc_plan_users.specs.Choosing.{none_chosen, set_at, users_of, with_text, with_value, without_texts};

    /// Nothing chosen of the plan's variables and sets.
    pub fn new(alloc: Global, plan: &Plan) -> Result<UserValues, AllocError>
        ensures { IfOk result (λ users. users ≡ none_chosen plan.now) }
    {
        let values = no_values(alloc, plan)?;
        let sets = listed_sets(alloc, plan)?;
        Ok(UserValues { values, sets })
    }

    /// The user's value of the variable, if there is one.
    pub fn value(&self, var: u32) -> Option<Value>
        ensures { result ≡ slice_index_or self.now.values var None }
    {
        match self.values.as_slice().get(var as usize) {
            Some(value) => *value,
            None => None,
        }
    }

    /// Whether the user's set holds the text.
    pub fn holds(&self, set: u32, text: u32) -> bool
        ensures { result ≡ holds (users_of self.now) set text }
    {
        holds_among(self.texts(set), text)
    }

    /// The texts of the set's list, each with whether it is held.
    pub fn texts(&self, set: u32) -> &[SetText]
        ensures { result.now ≡ set_at self.now set }
    {
        match self.sets.get(set as usize) {
            Some(texts) => texts.as_slice(),
            None => &[],
        }
    }

    /// Makes this the user's value of the variable, or leaves it none.
    pub fn put(&mut self, var: u32, value: Option<Value>)
        requires { var < length self.old.values }
        ensures { self.new ≡ with_value self.old var value }
    {
        self.values.set(var as usize, value);
    }

    /// Lets the user's set hold the listed text, or not.
    pub fn put_text(&mut self, set: u32, text: u32, there: bool)
        ensures { self.new ≡ with_text self.old set text there }
    {
        match self.sets.get_mut(set as usize) {
            Some(texts) => mark(texts, text, there),
            None => {}
        }
    }

    /// Lets the user's set hold nothing.
    pub fn clear(&mut self, set: u32)
        ensures { self.new ≡ without_texts self.old set }
    {
        match self.sets.get_mut(set as usize) {
            Some(texts) => let_go_all(texts),
            None => {}
        }
    }
}

// No value of each of the plan's variables.
fn no_values(alloc: Global, plan: &Plan) -> Result<Listed<Option<Value>>, AllocError>
    ensures { IfOk result (λ values. values ≡ map (λ x. None) plan.now.vars) }
{
    let mut values = Listed::new(alloc);
    let mut rest = plan.vars.as_slice();
    while let [var, more @ ..] = rest {
        values.push(None)?;
        rest = more;
    }
    Ok(values)
}

// The listed texts of each of the plan's sets.
fn listed_sets(alloc: Global, plan: &Plan) -> Result<Vec<Listed<SetText>>, AllocError>
    ensures { IfOk result (λ sets. sets.items ≡ map (listed_at plan.now) plan.now.sets) }
{
    let mut sets = Vec::new(alloc);
    let mut rest = plan.sets.as_slice();
    while let [set, more @ ..] = rest {
        sets.push(listed_in(alloc, plan, set)?)?;
        rest = more;
    }
    Ok(sets)
}

// The listed texts of a set, none of them held.
fn listed_in(alloc: Global, plan: &Plan, set: &TextSet) -> Result<Listed<SetText>, AllocError>
    ensures { IfOk result (λ texts. texts ≡ listed_at plan.now set.now) }
{
    match plan.domains.as_slice().get(set.domain as usize) {
        Some(Domain::Texts(texts)) => not_held(alloc, texts.as_slice()),
        _ => Ok(Listed::new(alloc)),
    }
}

fn not_held(alloc: Global, texts: &[u32]) -> Result<Listed<SetText>, AllocError>
    ensures { IfOk result (λ listed. listed ≡ map not_held texts.now) }
{
    let mut listed = Listed::new(alloc);
    let mut rest = texts;
    while let [text, more @ ..] = rest {
        listed.push(SetText {
            text: *text,
            held: false,
        })?;
        rest = more;
    }
    Ok(listed)
}

fn holds_among(listed: &[SetText], text: u32) -> bool
    ensures { result ≡ list_any (λ t. t == text) (held_texts listed.now) }
{
    let mut rest = listed;
    while let [first, more @ ..] = rest {
        if first.held && first.text == text {
            return true;
        }
        rest = more;
    }
    false
}

// Lets the text be held or not, wherever it is listed.
fn mark(listed: &mut Listed<SetText>, text: u32, there: bool)
    ensures { listed.new ≡ map (marked text there) listed.old }
{
    for place in 0..listed.len() {
        let entry = listed.as_slice()[place];
        listed.set(place, marked(entry, text, there));
    }
}

fn marked(listed: SetText, text: u32, there: bool) -> SetText
    ensures { result ≡ marked text there listed }
{
    if listed.text == text {
        SetText {
            text: listed.text,
            held: there,
        }
    } else {
        listed
    }
}

// Lets none of the texts be held.
fn let_go_all(listed: &mut Listed<SetText>)
    ensures { listed.new ≡ map let_go listed.old }
{
    for place in 0..listed.len() {
        let entry = listed.as_slice()[place];
        listed.set(place, let_go(entry));
    }
}

fn let_go(listed: SetText) -> SetText
    ensures { result ≡ let_go listed }
{
    SetText {
        text: listed.text,
        held: false,
    }
}
