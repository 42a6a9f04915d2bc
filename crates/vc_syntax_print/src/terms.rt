//! The lexemes of operands and terms.

ghost use Rattle.std.specs.Prelude.{◌≡◌, ◌++◌, ◌∷◌, [], OnOk};
ghost use Rattle.vc_syntax_tokens.specs.declared.token.Lexeme.TheVariants as lexemes;
ghost use Rattle.vc_syntax_tokens.specs.declared.token.Sign.TheVariants as signs;
ghost use Rattle.vc_syntax_tokens.specs.declared.token.Dollar.TheVariants as dollars;
ghost use Rattle.vc_syntax_tree.specs.Trees.{term_of};
ghost use Rattle.vc_syntax_print.specs.TermLexemes as prints;

use crate::leaves::{put_dollar, put_name, put_number, put_sign, put_text, put_variable, put_word};
use std::alloc::{AllocError, Global};
use vc_syntax_tokens::token::{Dollar, Lexeme, Reserved, Sign};
use vc_syntax_tree::{Function, NameLeaf, Operand, Operator, Owner, Term};
use vc_value::Listed;

fn owner_word(owner: Owner) -> Dollar
    ensures { result ≡ prints.owner_word owner }
{
    match owner {
        Owner::Itself => Dollar::Itself,
        Owner::Parent => Dollar::Parent,
        Owner::Root => Dollar::Root,
    }
}

fn function_word(function: Function) -> Reserved
    ensures { result ≡ prints.function_word function }
{
    match function {
        Function::Abs => Reserved::Abs,
        Function::Sign => Reserved::Sign,
        Function::Trunc => Reserved::Trunc,
        Function::Floor => Reserved::Floor,
        Function::Ceil => Reserved::Ceil,
        Function::Frac => Reserved::Frac,
    }
}

fn operator_sign(operator: Operator) -> Sign
    ensures { result ≡ prints.operator_sign operator }
{
    match operator {
        Operator::Plus => Sign::Plus,
        Operator::Minus => Sign::Minus,
        Operator::Times => Sign::Star,
        Operator::Over => Sign::Slash,
    }
}

fn put_dotted(alloc: Global, out: &mut Listed<Lexeme>, name: &NameLeaf) -> Result<(), AllocError>
    ensures { OnOk result (out.new ≡ out.old ++ lexemes.Sign signs.Dot ∷ lexemes.Name name.now.name ∷ []) }
{
    put_sign(out, Sign::Dot)?;
    put_name(alloc, out, name)
}

fn put_owned(
    alloc: Global,
    out: &mut Listed<Lexeme>,
    owner: Owner,
    name: &NameLeaf,
) -> Result<(), AllocError>
    ensures { OnOk result (out.new ≡ out.old
        ++ lexemes.Dollar (prints.owner_word owner) ∷ lexemes.Sign signs.Dot ∷ lexemes.Name name.now.name ∷ []) }
{
    put_dollar(out, owner_word(owner))?;
    put_dotted(alloc, out, name)
}

fn put_member(
    alloc: Global,
    out: &mut Listed<Lexeme>,
    variable: &NameLeaf,
    name: &NameLeaf,
) -> Result<(), AllocError>
    ensures { OnOk result (out.new ≡ out.old
        ++ lexemes.Variable variable.now.name ∷ lexemes.Sign signs.Dot ∷ lexemes.Name name.now.name ∷ []) }
{
    put_variable(alloc, out, variable)?;
    put_dotted(alloc, out, name)
}

/// Puts an operand.
pub fn put_operand(
    alloc: Global,
    out: &mut Listed<Lexeme>,
    operand: &Operand,
) -> Result<(), AllocError>
    ensures { OnOk result (out.new ≡ out.old ++ prints.operand_lexemes operand.now) }
{
    match operand {
        Operand::Plain(name) => put_name(alloc, out, name),
        Operand::Owned(owner, name) => put_owned(alloc, out, *owner, name),
        Operand::Member(variable, name) => put_member(alloc, out, variable.get(), name),
        Operand::Variable(name) => put_variable(alloc, out, name),
    }
}

fn is_additive(operator: Operator) -> bool
    ensures { result ≡ prints.is_additive operator }
{
    matches!(operator, Operator::Plus | Operator::Minus)
}

fn is_sum(term: &Term) -> bool
    ensures { result ≡ prints.is_sum (term_of term.now) }
{
    match term {
        Term::Combined(_, operator, _) => is_additive(*operator),
        _ => false,
    }
}

fn is_combined(term: &Term) -> bool
    ensures { result ≡ prints.is_combined (term_of term.now) }
{
    matches!(term, Term::Combined(..))
}

fn left_needs(operator: Operator, term: &Term) -> bool
    ensures { result ≡ prints.left_needs operator (term_of term.now) }
{
    !is_additive(operator) && is_sum(term)
}

fn right_needs(operator: Operator, term: &Term) -> bool
    ensures { result ≡ prints.right_needs operator (term_of term.now) }
{
    if is_additive(operator) {
        is_sum(term)
    } else {
        is_combined(term)
    }
}

// Puts `( $SELF`.
fn put_open_self(out: &mut Listed<Lexeme>) -> Result<(), AllocError>
    ensures { OnOk result (out.new ≡ out.old ++ lexemes.Sign signs.OpenParen ∷ lexemes.Dollar dollars.Itself ∷ []) }
{
    put_sign(out, Sign::OpenParen)?;
    put_dollar(out, Dollar::Itself)
}

fn put_comma_name(
    alloc: Global,
    out: &mut Listed<Lexeme>,
    name: &NameLeaf,
) -> Result<(), AllocError>
    ensures { OnOk result (out.new ≡ out.old ++ lexemes.Sign signs.Comma ∷ lexemes.Name name.now.name ∷ []) }
{
    put_sign(out, Sign::Comma)?;
    put_name(alloc, out, name)
}

/// Puts `( $SELF , C`.
pub fn put_self_and_name(
    alloc: Global,
    out: &mut Listed<Lexeme>,
    name: &NameLeaf,
) -> Result<(), AllocError>
    ensures { OnOk result (out.new ≡ out.old ++ prints.self_and_name name.now) }
{
    put_open_self(out)?;
    put_comma_name(alloc, out, name)
}

fn put_sum_of_parts(
    alloc: Global,
    out: &mut Listed<Lexeme>,
    name: &NameLeaf,
) -> Result<(), AllocError>
    ensures { OnOk result (out.new ≡ out.old
        ++ lexemes.Dollar dollars.SumParts ∷ (prints.self_and_name name.now ++ lexemes.Sign signs.CloseParen ∷ [])) }
{
    put_dollar(out, Dollar::SumParts)?;
    put_self_and_name(alloc, out, name)?;
    put_sign(out, Sign::CloseParen)
}

fn put_count_of_parts(out: &mut Listed<Lexeme>) -> Result<(), AllocError>
    ensures { OnOk result (out.new ≡ out.old
        ++ lexemes.Dollar dollars.CountParts ∷ prints.wrapped (lexemes.Dollar dollars.Itself ∷ [])) }
{
    put_dollar(out, Dollar::CountParts)?;
    put_open_self(out)?;
    put_sign(out, Sign::CloseParen)
}

// Puts a term, between parentheses or not.
#[cycle(terms)]
fn put_side(
    alloc: Global,
    out: &mut Listed<Lexeme>,
    term: &Term,
    needs: bool,
) -> Result<(), AllocError>
    ensures { OnOk result (out.new ≡ out.old ++ prints.wrapped_if needs (prints.term_lexemes (term_of term.now))) }
{
    if needs {
        put_sign(out, Sign::OpenParen)?;
        put_term(alloc, out, term)?;
        put_sign(out, Sign::CloseParen)
    } else {
        put_term(alloc, out, term)
    }
}

/// Puts a term.
#[cycle(terms)]
pub fn put_term(alloc: Global, out: &mut Listed<Lexeme>, term: &Term) -> Result<(), AllocError>
    ensures { OnOk result (out.new ≡ out.old ++ prints.term_lexemes (term_of term.now)) }
{
    match term {
        Term::Number(leaf) => put_number(out, leaf.number),
        Term::Text(leaf) => put_text(alloc, out, leaf),
        Term::Operand(operand) => put_operand(alloc, out, operand),
        Term::Negated(term) => {
            put_sign(out, Sign::Minus)?;
            put_side(alloc, out, term, is_combined(term))
        }
        Term::Combined(left, operator, right) => {
            put_side(alloc, out, left, left_needs(*operator, left))?;
            put_sign(out, operator_sign(*operator))?;
            put_side(alloc, out, right, right_needs(*operator, right))
        }
        Term::Applied(function, term) => {
            put_word(out, function_word(*function))?;
            put_side(alloc, out, term, true)
        }
        Term::SumOfParts(name) => put_sum_of_parts(alloc, out, name),
        Term::CountOfParts => put_count_of_parts(out),
    }
}
