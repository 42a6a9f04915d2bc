//! The grains of a plan's variables and the texts of its sets: which there are, and which values they hold.

ghost use Rattle.std.specs.Prelude.{◌≡◌, ◌^◌, ◌<◌, map, slice_get, IfNone, IfSome, Some, None};
ghost use Rattle.vc_plan.specs.Domains.{atom_count, count_of, domain_of, grains_in, grains_of, is_grain_with};
ghost use Rattle.vc_plan.specs.Domains.{is_restrictable, texts_in, texts_of};
ghost use Rattle.vc_plan.specs.Pieces.{lies_in, lies_in_some};
ghost use Rattle.vc_plan.specs.declared.conditions.Piece.TheVariants.{OneText, Stretch};

use crate::pieces::lies_in;
use vc_plan::{Piece, Plan, count_of, element};
use vc_value::{Domain, GrainList, Value};

/// The values that the variable may have.
pub fn domain_of(plan: &Plan, var: u32) -> Option<&Domain>
    ensures some { IfSome result (λ domain. domain_of plan.now (slice_get plan.now.vars var) ≡ Some domain.now) }
    ensures none { IfNone result (domain_of plan.now (slice_get plan.now.vars var) ≡ None) }
{
    match element(plan.vars.as_slice(), var) {
        Some(var) => element(plan.domains.as_slice(), var.domain),
        None => None,
    }
}

/// The text of this number among these, as a piece.
#[tactic(auto, using(crate::proofs::GrainLemmas::text_at))]
pub fn text_at(texts: &[u32], grain: usize) -> Option<Piece>
    ensures { result ≡ slice_get (map OneText texts.now) grain }
{
    match texts.get(grain) {
        Some(text) => Some(Piece::OneText(*text)),
        None => None,
    }
}

#[tactic(auto, using(crate::proofs::GrainLemmas::stretch_at, crate::proofs::GrainLemmas::no_stretch_at))]
fn stretch_at(grains: &GrainList, grain: usize) -> Option<Piece>
    ensures { result ≡ slice_get (map Stretch grains.now) grain }
{
    if grain < grains.count() as usize {
        Some(Piece::Stretch(grains.grain(grain as u32)))
    } else {
        None
    }
}

/// The grain of this number of the domain, if it has it.
pub fn piece_in(domain: &Domain, grain: usize) -> Option<Piece>
    ensures { result ≡ slice_get (grains_in (Some domain.now)) grain }
{
    match domain {
        Domain::Texts(texts) => text_at(texts.as_slice(), grain),
        Domain::Nums {
            decimals: _,
            grains,
        } => stretch_at(grains, grain),
    }
}

/// The variable's grain of this number, if it has it.
pub fn piece(plan: &Plan, var: u32, grain: u32) -> Option<Piece>
    ensures { result ≡ slice_get (grains_of plan.now var) grain }
{
    match domain_of(plan, var) {
        Some(domain) => piece_in(domain, grain as usize),
        None => None,
    }
}

/// Whether the variable's grain of this number holds the value.
pub fn holds(plan: &Plan, var: u32, value: Value, grain: u32) -> bool
    ensures { result ≡ is_grain_with plan.now var (lies_in value) grain }
{
    match piece(plan, var, grain) {
        Some(piece) => lies_in(value, piece),
        None => false,
    }
}

#[tactic(auto, using(crate::proofs::GrainLemmas::among_texts, crate::proofs::GrainLemmas::no_number))]
fn texts_hold(texts: &[u32], value: Value) -> bool
    ensures { result ≡ lies_in_some (map OneText texts.now) value }
{
    match value {
        Value::Text(text) => texts.contains(&text),
        Value::Num(_) => false,
    }
}

#[tactic(auto, using(crate::proofs::GrainLemmas::among_stretches, crate::proofs::GrainLemmas::no_text))]
fn stretches_hold(grains: &GrainList, value: Value) -> bool
    ensures { result ≡ lies_in_some (map Stretch grains.now) value }
{
    match value {
        Value::Text(_) => false,
        Value::Num(number) => grains.find(number).is_some(),
    }
}

fn domain_holds(domain: &Domain, value: Value) -> bool
    ensures { result ≡ lies_in_some (grains_in (Some domain.now)) value }
{
    match domain {
        Domain::Texts(texts) => texts_hold(texts.as_slice(), value),
        Domain::Nums {
            decimals: _,
            grains,
        } => stretches_hold(grains, value),
    }
}

/// Whether a grain of the variable holds the value.
pub fn some_holds(plan: &Plan, var: u32, value: Value) -> bool
    ensures { result ≡ lies_in_some (grains_of plan.now var) value }
{
    match domain_of(plan, var) {
        Some(domain) => domain_holds(domain, value),
        None => false,
    }
}

/// How many grains the variable has.
#[tactic(auto, using(crate::proofs::GrainLemmas::count_within))]
pub fn grain_count(plan: &Plan, var: u32) -> u32
    requires { atom_count plan.now < 2 ^ 32 }
    ensures { result ≡ count_of plan.now var }
{
    count_of(plan, var) as u32
}

/// Whether the net may exclude grains of the variable.
pub fn is_restrictable(plan: &Plan, var: u32) -> bool
    ensures { result ≡ is_restrictable plan.now var }
{
    match element(plan.vars.as_slice(), var) {
        Some(x) => x.restrictable,
        None => false,
    }
}

fn texts_in(domain: &Domain) -> &[u32]
    ensures { result.now ≡ texts_in (Some domain.now) }
{
    match domain {
        Domain::Texts(texts) => texts.as_slice(),
        Domain::Nums { .. } => &[],
    }
}

/// The texts that the set may have.
pub fn texts_of(plan: &Plan, set: u32) -> &[u32]
    ensures { result.now ≡ texts_of plan.now set }
{
    match element(plan.sets.as_slice(), set) {
        Some(x) => match element(plan.domains.as_slice(), x.domain) {
            Some(domain) => texts_in(domain),
            None => &[],
        },
        None => &[],
    }
}
