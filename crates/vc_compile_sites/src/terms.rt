//! Terms as the plan has them where they stand.

ghost use Rattle.std.specs.Prelude.{◌≡◌, neg_ℤ, IfOk};
ghost use Rattle.std.specs.Option.{option_copied};
ghost use Rattle.vc_syntax_tree.specs.Trees.{term_of};
ghost use Rattle.vc_compile_plan.specs.Terms as terms;
ghost use Rattle.vc_compile_plan.specs.Sites as sites;
ghost use Rattle.vc_compile_plan.specs.Trees as plan;
ghost use Rattle.vc_compile_layout.specs.Standing.{layout_seen};
ghost use Rattle.vc_compile_sites.specs.Standing.{site_seen};

use crate::site::Site;
use std::alloc::{AllocError, Global};
use vc_compile_layout::Layout;
use vc_plan::{Function, Operator, Term as PlanTerm};
use vc_syntax_tree::{Function as NamedFunction, Operand, Operator as NamedOperator, Term};
use vc_value::{Dec, Value};

fn function_of(function: NamedFunction) -> Function
    ensures { result ≡ terms.function_of function }
{
    match function {
        NamedFunction::Abs => Function::Abs,
        NamedFunction::Sign => Function::Sign,
        NamedFunction::Trunc => Function::Trunc,
        NamedFunction::Floor => Function::Floor,
        NamedFunction::Ceil => Function::Ceil,
        NamedFunction::Frac => Function::Frac,
    }
}

fn operator_of(operator: NamedOperator) -> Operator
    ensures { result ≡ terms.operator_of operator }
{
    match operator {
        NamedOperator::Plus => Operator::Plus,
        NamedOperator::Minus => Operator::Minus,
        NamedOperator::Times => Operator::Times,
        NamedOperator::Over => Operator::Over,
    }
}

/// The number with the other sign. The one number that has none is far past all numbers that a text
/// spells, and is answered as want of memory.
pub fn opposite(number: Dec) -> Result<Dec, AllocError>
    ensures { IfOk result (λ other. other ≡ terms.opposite number) }
{
    match number.millionths.checked_neg() {
        Some(millionths) => Ok(Dec { millionths }),
        None => Err(AllocError),
    }
}

// The literal that a minus before a term makes, where the term is a number.
fn minus_literal(term: &Term) -> Result<Option<Value>, AllocError>
    ensures { IfOk result (λ value. value ≡ terms.minus_literal (term_of term.now)) }
{
    match term {
        Term::Number(leaf) => Ok(Some(Value::Num(opposite(leaf.number)?))),
        _ => Ok(None),
    }
}

/// The value of a literal: a text, or a number with or without a minus.
pub fn literal_of(layout: &Layout<'_, '_>, term: &Term) -> Result<Option<Value>, AllocError>
    ensures { IfOk result (λ value. value ≡ terms.literal_of (layout_seen layout.now).texts (term_of term.now)) }
{
    match term {
        Term::Number(leaf) => Ok(Some(Value::Num(leaf.number))),
        Term::Text(leaf) => Ok(Some(Value::Text(layout.text_number(leaf.text.bytes())))),
        Term::Negated(inner) => minus_literal(inner),
        _ => Ok(None),
    }
}

/// The operand that a term is alone.
pub fn lone_of(term: &Term) -> Option<&Operand>
    ensures { option_copied result ≡ terms.lone_of (term_of term.now) }
{
    match term {
        Term::Operand(operand) => Some(operand),
        _ => None,
    }
}

fn number_or_zero(number: Option<u32>) -> u32
    ensures { result ≡ sites.number_or_zero number }
{
    match number {
        Some(number) => number,
        None => 0,
    }
}

fn applied(alloc: Global, function: Function, term: PlanTerm) -> Result<PlanTerm, AllocError>
    ensures { IfOk result (λ whole. plan.term_of whole ≡ plan.Applied function (plan.term_of term)) }
{
    let term = Box::new(alloc, term)?;
    Ok(PlanTerm::Applied(function, term))
}

fn joined(
    alloc: Global,
    operator: Operator,
    left: PlanTerm,
    right: PlanTerm,
) -> Result<PlanTerm, AllocError>
    ensures { IfOk result (λ whole. plan.term_of whole
        ≡ plan.Joined operator (plan.term_of left) (plan.term_of right)) }
{
    let left = Box::new(alloc, left)?;
    let right = Box::new(alloc, right)?;
    Ok(PlanTerm::Joined(operator, left, right))
}

// A minus before a term; before a number it makes this literal.
fn minus(alloc: Global, literal: Option<Value>, term: PlanTerm) -> Result<PlanTerm, AllocError>
    ensures { IfOk result (λ whole. plan.term_of whole ≡ terms.minus literal (plan.term_of term)) }
{
    match literal {
        Some(value) => Ok(PlanTerm::Literal(value)),
        None => applied(alloc, Function::Negative, term),
    }
}

/// The term as the plan has it at the site.
pub fn term_at(
    alloc: Global,
    layout: &Layout<'_, '_>,
    site: &Site<'_, '_, '_, '_>,
    term: &Term,
) -> Result<PlanTerm, AllocError>
    ensures { IfOk result (λ whole. plan.term_of whole
        ≡ terms.term_at (layout_seen layout.now) (site_seen site.now) (term_of term.now)) }
{
    match term {
        Term::Number(leaf) => Ok(PlanTerm::Literal(Value::Num(leaf.number))),
        Term::Text(leaf) => {
            let text = layout.text_number(leaf.text.bytes());
            Ok(PlanTerm::Literal(Value::Text(text)))
        }
        Term::Operand(operand) => Ok(PlanTerm::Read(site.var_meant(layout, operand))),
        Term::Negated(inner) => minus(
            alloc,
            minus_literal(inner)?,
            term_at(alloc, layout, site, inner)?,
        ),
        Term::Combined(left, operator, right) => joined(
            alloc,
            operator_of(*operator),
            term_at(alloc, layout, site, left)?,
            term_at(alloc, layout, site, right)?,
        ),
        Term::Applied(function, inner) => applied(
            alloc,
            function_of(*function),
            term_at(alloc, layout, site, inner)?,
        ),
        Term::SumOfParts(name) => Ok(PlanTerm::PartSum {
            slot: site.own,
            characteristic: number_or_zero(layout.names().characteristic(name.name.bytes())),
        }),
        Term::CountOfParts => Ok(PlanTerm::PartCount(site.own)),
    }
}
