//! Parts of what a giver says.

ghost use Rattle.std.specs.Prelude.{◌≡◌, ◌^◌, ◌<◌, ◌&&◌};
ghost use Rattle.vc_base.specs.Rounds.{atoms_of, is_clash};
ghost use Rattle.vc_base.specs.Sets.{has};
ghost use Rattle.vc_plan.specs.Domains.{atom_count, is_grain_with};
ghost use Rattle.vc_plan.specs.Seen.{same_atom};
ghost use Rattle.vc_check_gives.specs.Parts.{all_said, fails, given_by, part_given, passes_or_out, puts_out};
ghost use Rattle.vc_check_gives.specs.declared.parts.Part.TheVariants.{Others};
ghost use Rattle.vc_check_gives.specs.declared.parts.Parts.TheVariants.{Both};

use crate::tests::{Test, is_grain_with, passes};
use vc_check_board::clear::says;
use vc_check_board::values::same_atom;
use vc_plan::{Atom, Plan, View};
use vc_plan_values::{grain_count, piece};
use vc_value::Value;

/// A part of what a giver says.
#[derive(Clone, Copy)]
pub enum Part<'a> {
    Nothing,
    Clash,
    /// The slot is here.
    Slot(u32),
    /// The variable has the value.
    To(u32, Value),
    /// The variable's grains that fail the test are out.
    Others(u32, Test<'a>),
}

/// What a giver says: one part, or two beside each other.
#[derive(Clone, Copy)]
pub enum Parts<'a> {
    Alone(Part<'a>),
    Both(Part<'a>, Part<'a>),
}

fn is_clash<'a>(plan: &Plan, part: Part<'a>) -> bool
    ensures { result ≡ is_clash (part_given plan.now part.entry) }
{
    match part {
        Part::Clash => true,
        _ => false,
    }
}

fn fails<'a>(plan: &Plan, var: u32, test: Test<'a>, grain: u32) -> bool
    ensures { result ≡ fails plan.now var test.entry grain }
{
    match piece(plan, var, grain) {
        Some(piece) => !passes(test, piece),
        None => false,
    }
}

fn puts_out<'a>(plan: &Plan, var: u32, test: Test<'a>, atom: Atom) -> bool
    ensures { result ≡ puts_out plan.now var test.entry atom }
{
    match atom {
        Atom::Out(other, grain) => other == var && fails(plan, var, test, grain),
        _ => false,
    }
}

#[tactic(auto, using(crate::proofs::PartLemmas::being_among))]
fn is_in<'a>(plan: &Plan, part: Part<'a>, atom: Atom) -> bool
    ensures { result ≡ has same_atom (atoms_of (part_given plan.now part.entry)) atom }
{
    match part {
        Part::Nothing => false,
        Part::Clash => false,
        Part::Slot(slot) => same_atom(atom, Atom::Here(slot)),
        Part::To(var, value) => same_atom(atom, Atom::Is(var, value)),
        Part::Others(var, test) => puts_out(plan, var, test, atom),
    }
}

fn passes_or_is_out<'a, V: View>(
    plan: &Plan,
    view: &V,
    var: u32,
    test: Test<'a>,
    grain: u32,
) -> bool
    ensures { result ≡ passes_or_out plan.now (V.seen view.now) var test.entry grain }
{
    is_grain_with(plan, var, test, grain) || view.out(var, grain)
}

#[tactic(auto, using(crate::proofs::PartLemmas::silence))]
fn others_are_out<'a, V: View>(plan: &Plan, view: &V, var: u32, test: Test<'a>) -> bool
    requires { atom_count plan.now < 2 ^ 32 }
    ensures { result ≡ all_said (V.seen view.now) (part_given plan.now (Others var test.entry)) }
{
    let count = grain_count(plan, var);
    let mut grain = 0;
    while grain < count {
        if !passes_or_is_out(plan, view, var, test, grain) {
            return false;
        }
        grain += 1;
    }
    true
}

#[tactic(auto, using(crate::proofs::PartLemmas::one_said))]
fn is_said<'a, V: View>(plan: &Plan, view: &V, part: Part<'a>) -> bool
    requires { atom_count plan.now < 2 ^ 32 }
    ensures { result ≡ all_said (V.seen view.now) (part_given plan.now part.entry) }
{
    match part {
        Part::Nothing => true,
        Part::Clash => false,
        Part::Slot(slot) => says(view, Atom::Here(slot)),
        Part::To(var, value) => says(view, Atom::Is(var, value)),
        Part::Others(var, test) => others_are_out(plan, view, var, test),
    }
}

/// Whether it is a clash.
#[tactic(auto, using(crate::proofs::PartLemmas::clash_beside))]
pub fn clashes<'a>(plan: &Plan, parts: Parts<'a>) -> bool
    ensures { result ≡ is_clash (given_by plan.now parts.entry) }
{
    match parts {
        Parts::Alone(part) => is_clash(plan, part),
        Parts::Both(first, second) => is_clash(plan, first) || is_clash(plan, second),
    }
}

#[tactic(auto, using(crate::proofs::PartLemmas::in_beside))]
fn is_in_both<'a>(plan: &Plan, first: Part<'a>, second: Part<'a>, atom: Atom) -> bool
    ensures { result ≡ has same_atom (atoms_of (given_by plan.now (Both first.entry second.entry))) atom }
{
    if is_clash(plan, first) || is_clash(plan, second) {
        false
    } else {
        is_in(plan, first, atom) || is_in(plan, second, atom)
    }
}

/// Whether the atom is among it.
pub fn gives<'a>(plan: &Plan, parts: Parts<'a>, atom: Atom) -> bool
    ensures { result ≡ has same_atom (atoms_of (given_by plan.now parts.entry)) atom }
{
    match parts {
        Parts::Alone(part) => is_in(plan, part, atom),
        Parts::Both(first, second) => is_in_both(plan, first, second, atom),
    }
}

/// Whether it is no clash, and all of it is said already.
#[tactic(auto, using(crate::proofs::PartLemmas::said_beside))]
pub fn are_said<'a, V: View>(plan: &Plan, view: &V, parts: Parts<'a>) -> bool
    requires { atom_count plan.now < 2 ^ 32 }
    ensures { result ≡ all_said (V.seen view.now) (given_by plan.now parts.entry) }
{
    match parts {
        Parts::Alone(part) => is_said(plan, view, part),
        Parts::Both(first, second) => is_said(plan, view, first) && is_said(plan, view, second),
    }
}
