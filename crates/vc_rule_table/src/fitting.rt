//! What the cells of a column have to pass to fit, asked of each in constant time or by halves.

ghost use Rattle.std.specs.Prelude.{◌≡◌, ◌^◌, ◌<◌, not, ◌&&◌, length, map, slice_get, slice_set, IfSome, None, Some};
ghost use Rattle.vc_value.specs.declared.value.Value.{Value};
ghost use Rattle.vc_value.specs.declared.value.Value.TheVariants.{Num, Text};
ghost use Rattle.vc_plan.specs.declared.conditions.Piece.TheVariants.{OneText, Stretch};
ghost use Rattle.vc_plan.specs.Domains.{domain_of, grains_in, grains_of, texts_in};
ghost use Rattle.vc_plan.specs.Pieces.{lies_in_some};
ghost use Rattle.vc_plan.specs.TableRows.{fits, cell_passes};
ghost use Rattle.vc_rule_table.specs.Cells.{FewGrains, has_left_among};
ghost use Rattle.vc_rule_table.specs.Fitting.{IsTest, LeftOf, TellsLeft, holds_both, is_left_at, is_text, piece_has};
ghost use Rattle.vc_rule_table.specs.Fitting.{test_passes, with_left};

use crate::cells::has_left_among;
use vc_plan::{Operand, Piece, Plan, View, element};
use vc_plan_values::grains::domain_of;
use vc_plan_values::lies_in;
use vc_rule_yield::atoms::same_value;
use vc_value::{Dec, Domain, GrainList, Listed, Value};

/// What a cell has to be: the literal; in the grain of the variable's value, if it lies in one; in a grain that is left
/// of the variable, which has no value.
#[derive(Clone, Copy, Debug)]
pub enum Test {
    Same(Value),
    Within(Option<Piece>),
    Left(u32),
}

/// Whether the text is one of the list.
pub fn has_text(texts: &[u32], text: u32) -> bool
    ensures { result ≡ lies_in_some (map OneText texts.now) (Text text) }
{
    let mut rest = texts;
    while let [other, more @ ..] = rest {
        if *other == text {
            return true;
        }
        rest = more;
    }
    false
}

fn number_piece(grains: &GrainList, number: Dec) -> Option<Piece>
    ensures { (a : Value) → piece_has result a ≡ holds_both (map Stretch grains.now) (Num number) a }
{
    // As they ascend, one alone holds it.
    let _count = grains.count();
    match grains.find(number) {
        Some(grain) => Some(Piece::Stretch(grains.grain(grain))),
        None => None,
    }
}

fn text_piece(texts: &[u32], text: u32) -> Option<Piece>
    ensures { (a : Value) → piece_has result a ≡ holds_both (map OneText texts.now) (Text text) a }
{
    if has_text(texts, text) {
        Some(Piece::OneText(text))
    } else {
        None
    }
}

// The piece in which a value lies where it shares a grain with the known one.
fn piece_with(domain: &Domain, known: Value) -> Option<Piece>
    ensures { (a : Value) → piece_has result a ≡ holds_both (grains_in (Some domain.now)) known a }
{
    match domain {
        Domain::Texts(texts) => match known {
            Value::Text(text) => text_piece(texts.as_slice(), text),
            Value::Num(_) => None,
        },
        Domain::Nums {
            decimals: _,
            grains,
        } => match known {
            Value::Text(_) => None,
            Value::Num(number) => number_piece(grains, number),
        },
    }
}

fn known_piece(plan: &Plan, var: u32, known: Value) -> Option<Piece>
    ensures { (a : Value) → piece_has result a ≡ holds_both (grains_of plan.now var) known a }
{
    match domain_of(plan, var) {
        Some(domain) => piece_with(domain, known),
        None => None,
    }
}

/// What a cell has to pass in a column that is given this.
pub fn test_of<V: View>(plan: &Plan, view: &V, operand: Operand) -> Test
    ensures { IsTest plan.now (V.seen view.now) operand result }
{
    match operand {
        Operand::Constant(literal) => Test::Same(literal),
        Operand::Variable(var) => match view.value(var) {
            Some(known) => Test::Within(known_piece(plan, var, known)),
            None => Test::Left(var),
        },
    }
}

fn is_text_at(texts: &[u32], text: u32, grain: u32) -> bool
    ensures { result ≡ is_text text (slice_get texts.now grain) }
{
    match element(texts, grain) {
        Some(other) => *other == text,
        None => false,
    }
}

fn is_left_at<V: View>(view: &V, var: u32, texts: &[u32], text: u32, grain: u32) -> bool
    ensures { result ≡ is_left_at ((V.seen view.now).out var) texts.now text (Some grain) }
{
    is_text_at(texts, text, grain) && !view.out(var, grain)
}

fn is_number_left<V: View>(view: &V, var: u32, grains: &GrainList, number: Dec) -> bool
    ensures { result ≡ has_left_among (map Stretch grains.now) (V.seen view.now) var None (Num number) }
{
    // As they ascend, one alone holds it.
    let _count = grains.count();
    match grains.find(number) {
        Some(grain) => !view.out(var, grain),
        None => false,
    }
}

// Whether a grain of the domain holds the value and isn't out. Where there was no room to tell of the text, all are
// asked.
fn is_left_of<V: View>(view: &V, var: u32, domain: &Domain, left: &[u32], value: Value) -> bool
    requires few { length (grains_in (Some domain.now)) < 2 ^ 32 }
    requires left { TellsLeft ((V.seen view.now).out var) (texts_in (Some domain.now)) left.now }
    ensures { result ≡ has_left_among (grains_in (Some domain.now)) (V.seen view.now) var None value }
{
    match domain {
        Domain::Texts(texts) => match value {
            Value::Text(text) => match element(left, text) {
                Some(grain) => is_left_at(view, var, texts.as_slice(), text, *grain),
                None => has_left_among(view, domain, var, None, value),
            },
            Value::Num(_) => false,
        },
        Domain::Nums {
            decimals: _,
            grains,
        } => match value {
            Value::Text(_) => false,
            Value::Num(number) => is_number_left(view, var, grains, number),
        },
    }
}

fn is_left<V: View>(plan: &Plan, view: &V, var: u32, left: &[u32], value: Value) -> bool
    requires few { FewGrains plan.now }
    requires left { TellsLeft ((V.seen view.now).out var)
        (texts_in (domain_of plan.now (slice_get plan.now.vars var))) left.now }
    ensures { result ≡ has_left_among (grains_of plan.now var) (V.seen view.now) var None value }
{
    match domain_of(plan, var) {
        Some(domain) => is_left_of(view, var, domain, left, value),
        None => false,
    }
}

/// Whether the value passes.
pub fn passes<V: View>(plan: &Plan, view: &V, test: Test, left: &[u32], value: Value) -> bool
    requires few { FewGrains plan.now }
    requires left { LeftOf plan.now (V.seen view.now) left.now test }
    ensures { result ≡ test_passes plan.now (V.seen view.now) test value }
{
    match test {
        Test::Same(literal) => same_value(literal, value),
        Test::Within(Some(piece)) => lies_in(value, piece),
        Test::Within(None) => false,
        Test::Left(var) => is_left(plan, view, var, left, value),
    }
}

fn tell_text<V: View>(view: &V, var: u32, text: u32, grain: u32, left: &mut Listed<u32>)
    ensures { left.new ≡ with_left ((V.seen view.now).out var grain) text grain left.old }
{
    let place = text as usize;
    if !view.out(var, grain) && place < left.len() {
        left.set(place, grain);
    }
}

fn tell_texts<V: View>(view: &V, var: u32, texts: &[u32], left: &mut Listed<u32>)
    requires { length texts.now < 2 ^ 32 }
    ensures { TellsLeft ((V.seen view.now).out var) texts.now left.new }
{
    for grain in 0..texts.len() {
        tell_text(view, var, texts[grain], grain as u32, left);
    }
}

fn tell_of<V: View>(view: &V, var: u32, domain: &Domain, left: &mut Listed<u32>)
    requires { length (grains_in (Some domain.now)) < 2 ^ 32 }
    ensures { TellsLeft ((V.seen view.now).out var) (texts_in (Some domain.now)) left.new }
{
    if let Domain::Texts(texts) = domain {
        tell_texts(view, var, texts.as_slice(), left);
    }
}

fn tell_variable<V: View>(plan: &Plan, view: &V, var: u32, left: &mut Listed<u32>)
    requires { FewGrains plan.now }
    ensures { TellsLeft ((V.seen view.now).out var) (texts_in (domain_of plan.now (slice_get plan.now.vars var)))
        left.new }
{
    if let Some(domain) = domain_of(plan, var) {
        tell_of(view, var, domain, left);
    }
}

/// Tells for each text a grain that is left, where the test asks for one.
pub fn tell_left<V: View>(plan: &Plan, view: &V, test: Test, left: &mut Listed<u32>)
    requires { FewGrains plan.now }
    ensures { LeftOf plan.now (V.seen view.now) left.new test }
{
    if let Test::Left(var) = test {
        tell_variable(plan, view, var, left);
    }
}
