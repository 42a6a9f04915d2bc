//! Terms, read from tokens.

ghost use Rattle.std.specs.Prelude.{◌≡◌, option_map, Some};
ghost use Rattle.vc_syntax_terms.specs.Reading.{Gives, made, closed};
ghost use Rattle.vc_syntax_terms.specs.TermReading as reads;
ghost use Rattle.vc_syntax_terms.specs.TermReading.{join};
ghost use Rattle.vc_syntax_tree.specs.Trees as trees;
ghost use Rattle.vc_syntax_tree.specs.Trees.{term_of};

use crate::reading::{
    ReadFault, after_self, after_sign, name_leaf, named, number_leaf, sign_ahead, text_leaf,
    variable_leaf,
};
use std::alloc::Global;
use vc_syntax_tokens::token::{Dollar, Lexeme, Reserved, Sign, Token};
use vc_syntax_tree::{Apart, Function, NameLeaf, Operand, Operator, Owner, Term};

fn owner_of(dollar: Dollar) -> Result<Owner, ReadFault>
    ensures { Gives (λ owner. owner) result (reads.owner_of dollar) }
{
    match dollar {
        Dollar::Itself => Ok(Owner::Itself),
        Dollar::Parent => Ok(Owner::Parent),
        Dollar::Root => Ok(Owner::Root),
        _ => Err(ReadFault::Ungrammatical),
    }
}

/// The name behind a dot, and what follows it.
pub fn dotted(alloc: Global, tokens: &[Token]) -> Result<(NameLeaf, &[Token]), ReadFault>
    ensures { Gives (λ x. (x.0, x.1.now)) result (reads.dotted tokens.now) }
{
    let rest = after_sign(Sign::Dot, tokens)?;
    let (name, rest) = named(alloc, rest)?;
    Ok((name, rest))
}

fn member(
    alloc: Global,
    variable: NameLeaf,
    tokens: &[Token],
) -> Result<(Operand, &[Token]), ReadFault>
    ensures { Gives (λ x. (x.0, x.1.now)) result (reads.member variable tokens.now) }
{
    match sign_ahead(Sign::Dot, tokens) {
        Some(rest) => {
            let (name, rest) = named(alloc, rest)?;
            let variable = Apart::new(alloc, variable)?;
            Ok((Operand::Member(variable, name), rest))
        }
        None => Ok((Operand::Variable(variable), tokens)),
    }
}

fn operand_from<'a>(
    alloc: Global,
    token: &Token,
    rest: &'a [Token],
) -> Result<(Operand, &'a [Token]), ReadFault>
    ensures { Gives (λ x. (x.0, x.1.now)) result (reads.operand_in token.now.lexeme token.now rest.now) }
{
    match &token.lexeme {
        Lexeme::Name(_) => Ok((Operand::Plain(name_leaf(alloc, token)?), rest)),
        Lexeme::Variable(_) => {
            let variable = variable_leaf(alloc, token)?;
            member(alloc, variable, rest)
        }
        Lexeme::Dollar(dollar) => {
            let owner = owner_of(*dollar)?;
            let (name, rest) = dotted(alloc, rest)?;
            Ok((Operand::Owned(owner, name), rest))
        }
        _ => Err(ReadFault::Ungrammatical),
    }
}

/// The operand in front, and what follows it.
pub fn operand(alloc: Global, tokens: &[Token]) -> Result<(Operand, &[Token]), ReadFault>
    ensures { Gives (λ x. (x.0, x.1.now)) result (reads.operand tokens.now) }
{
    match tokens {
        [token, rest @ ..] => operand_from(alloc, token, rest),
        [] => Err(ReadFault::Ungrammatical),
    }
}

fn function_of(word: Reserved) -> Result<Function, ReadFault>
    ensures { Gives (λ function. function) result (reads.function_of word) }
{
    match word {
        Reserved::Abs => Ok(Function::Abs),
        Reserved::Sign => Ok(Function::Sign),
        Reserved::Trunc => Ok(Function::Trunc),
        Reserved::Floor => Ok(Function::Floor),
        Reserved::Ceil => Ok(Function::Ceil),
        Reserved::Frac => Ok(Function::Frac),
        _ => Err(ReadFault::Ungrammatical),
    }
}

fn product_operator(tokens: &[Token]) -> Option<(Operator, &[Token])>
    ensures { option_map (λ x. (x.0, x.1.now)) result ≡ reads.product_operator tokens.now }
{
    match tokens {
        [
            Token {
                lexeme: Lexeme::Sign(Sign::Star),
                ..
            },
            rest @ ..,
        ] => Some((Operator::Times, rest)),
        [
            Token {
                lexeme: Lexeme::Sign(Sign::Slash),
                ..
            },
            rest @ ..,
        ] => Some((Operator::Over, rest)),
        _ => None,
    }
}

fn sum_operator(tokens: &[Token]) -> Option<(Operator, &[Token])>
    ensures { option_map (λ x. (x.0, x.1.now)) result ≡ reads.sum_operator tokens.now }
{
    match tokens {
        [
            Token {
                lexeme: Lexeme::Sign(Sign::Plus),
                ..
            },
            rest @ ..,
        ] => Some((Operator::Plus, rest)),
        [
            Token {
                lexeme: Lexeme::Sign(Sign::Minus),
                ..
            },
            rest @ ..,
        ] => Some((Operator::Minus, rest)),
        _ => None,
    }
}

/// `( $SELF , name`, and what follows it.
pub fn self_and_name(alloc: Global, tokens: &[Token]) -> Result<(NameLeaf, &[Token]), ReadFault>
    ensures { Gives (λ x. (x.0, x.1.now)) result (reads.self_and_name tokens.now) }
{
    let rest = after_sign(Sign::OpenParen, tokens)?;
    let rest = after_self(rest)?;
    let rest = after_sign(Sign::Comma, rest)?;
    let (name, rest) = named(alloc, rest)?;
    Ok((name, rest))
}

fn only_self(tokens: &[Token]) -> Result<&[Token], ReadFault>
    ensures { Gives (λ rest. rest.now) result (reads.only_self tokens.now) }
{
    let rest = after_sign(Sign::OpenParen, tokens)?;
    let rest = after_self(rest)?;
    let rest = after_sign(Sign::CloseParen, rest)?;
    Ok(rest)
}

// The term in memory of its own.
fn boxed(alloc: Global, term: Term) -> Result<Box<Term>, ReadFault>
    ensures { Gives (λ b. term_of b.value) result (Some (term_of term)) }
{
    Ok(Box::new(alloc, term)?)
}

fn operand_term<'a>(
    alloc: Global,
    token: &Token,
    rest: &'a [Token],
) -> Result<(Box<Term>, &'a [Token]), ReadFault>
    ensures { Gives (λ x. (term_of x.0.value, x.1.now)) result
        (made trees.Operand (reads.operand_in token.now.lexeme token.now rest.now)) }
{
    let (operand, rest) = operand_from(alloc, token, rest)?;
    let term = boxed(alloc, Term::Operand(operand))?;
    Ok((term, rest))
}

fn sum_of_parts(alloc: Global, tokens: &[Token]) -> Result<(Box<Term>, &[Token]), ReadFault>
    ensures { Gives (λ x. (term_of x.0.value, x.1.now)) result
        (made trees.SumOfParts (closed (reads.self_and_name tokens.now))) }
{
    let (name, rest) = self_and_name(alloc, tokens)?;
    let rest = after_sign(Sign::CloseParen, rest)?;
    let term = boxed(alloc, Term::SumOfParts(name))?;
    Ok((term, rest))
}

fn count_of_parts(alloc: Global, tokens: &[Token]) -> Result<(Box<Term>, &[Token]), ReadFault>
    ensures { Gives (λ x. (term_of x.0.value, x.1.now)) result (reads.count_of_parts tokens.now) }
{
    let rest = only_self(tokens)?;
    let term = boxed(alloc, Term::CountOfParts)?;
    Ok((term, rest))
}

// The factors that hold no other term.
fn plain_factor<'a>(
    alloc: Global,
    token: &Token,
    rest: &'a [Token],
) -> Result<(Box<Term>, &'a [Token]), ReadFault>
    ensures { Gives (λ x. (term_of x.0.value, x.1.now)) result
        (reads.plain_factor token.now.lexeme token.now rest.now) }
{
    match &token.lexeme {
        Lexeme::Number(_) => {
            let leaf = number_leaf(token)?;
            let term = boxed(alloc, Term::Number(leaf))?;
            Ok((term, rest))
        }
        Lexeme::Text(_) => {
            let leaf = text_leaf(alloc, token)?;
            let term = boxed(alloc, Term::Text(leaf))?;
            Ok((term, rest))
        }
        Lexeme::Dollar(Dollar::SumParts) => sum_of_parts(alloc, rest),
        Lexeme::Dollar(Dollar::CountParts) => count_of_parts(alloc, rest),
        _ => operand_term(alloc, token, rest),
    }
}

// The term, if a closing parenthesis follows it.
fn closed(term: Box<Term>, tokens: &[Token]) -> Result<(Box<Term>, &[Token]), ReadFault>
    ensures { Gives (λ x. (term_of x.0.value, x.1.now)) result (closed (Some (term_of term.value, tokens.now))) }
{
    let rest = after_sign(Sign::CloseParen, tokens)?;
    Ok((term, rest))
}

fn combined(
    alloc: Global,
    operator: Operator,
    left: Box<Term>,
    right: Box<Term>,
) -> Result<Box<Term>, ReadFault>
    ensures { Gives (λ b. term_of b.value) result (Some (join operator (term_of left.value) (term_of right.value))) }
{
    boxed(alloc, Term::Combined(left, operator, right))
}

fn negated(alloc: Global, term: Box<Term>) -> Result<Box<Term>, ReadFault>
    ensures { Gives (λ b. term_of b.value) result (Some (trees.Negated (term_of term.value))) }
{
    boxed(alloc, Term::Negated(term))
}

fn applied(alloc: Global, function: Function, term: Box<Term>) -> Result<Box<Term>, ReadFault>
    ensures { Gives (λ b. term_of b.value) result (Some (trees.Applied function (term_of term.value))) }
{
    boxed(alloc, Term::Applied(function, term))
}

/// The factor in front, nested less deep than the bound, and what follows it.
#[cycle(terms)]
pub fn factor(
    alloc: Global,
    tokens: &[Token],
    left: u32,
) -> Result<(Box<Term>, &[Token]), ReadFault>
    ensures { Gives (λ x. (term_of x.0.value, x.1.now)) result (reads.factor left tokens.now) }
{
    if left == 0 {
        return Err(ReadFault::Ungrammatical);
    }
    match tokens {
        [token, rest @ ..] => factor_from(alloc, token, rest, left - 1),
        [] => Err(ReadFault::Ungrammatical),
    }
}

#[cycle(terms)]
fn factor_from<'a>(
    alloc: Global,
    token: &Token,
    rest: &'a [Token],
    left: u32,
) -> Result<(Box<Term>, &'a [Token]), ReadFault>
    ensures { Gives (λ x. (term_of x.0.value, x.1.now)) result
        (reads.factor_in (reads.factor left) (reads.sum left) token.now.lexeme token.now rest.now) }
{
    match &token.lexeme {
        Lexeme::Sign(Sign::Minus) => {
            let (term, rest) = factor(alloc, rest, left)?;
            let term = negated(alloc, term)?;
            Ok((term, rest))
        }
        Lexeme::Sign(Sign::OpenParen) => {
            let (term, rest) = sum(alloc, rest, left)?;
            closed(term, rest)
        }
        Lexeme::Reserved(word) => {
            let function = function_of(*word)?;
            let rest = after_sign(Sign::OpenParen, rest)?;
            let (term, rest) = sum(alloc, rest, left)?;
            let (term, rest) = closed(term, rest)?;
            let term = applied(alloc, function, term)?;
            Ok((term, rest))
        }
        _ => plain_factor(alloc, token, rest),
    }
}

#[cycle(terms)]
fn product(alloc: Global, tokens: &[Token], left: u32) -> Result<(Box<Term>, &[Token]), ReadFault>
    ensures { Gives (λ x. (term_of x.0.value, x.1.now)) result (reads.product left tokens.now) }
{
    let (mut term, mut rest) = factor(alloc, tokens, left)?;
    while let Some((operator, after)) = product_operator(rest) {
        let (right, after) = factor(alloc, after, left)?;
        term = combined(alloc, operator, term, right)?;
        rest = after;
    }
    Ok((term, rest))
}

/// The term in front, each factor nested less deep than the bound, and what follows it.
#[cycle(terms)]
pub fn sum(alloc: Global, tokens: &[Token], left: u32) -> Result<(Box<Term>, &[Token]), ReadFault>
    ensures { Gives (λ x. (term_of x.0.value, x.1.now)) result (reads.sum left tokens.now) }
{
    let (mut term, mut rest) = product(alloc, tokens, left)?;
    while let Some((operator, after)) = sum_operator(rest) {
        let (right, after) = product(alloc, after, left)?;
        term = combined(alloc, operator, term, right)?;
        rest = after;
    }
    Ok((term, rest))
}
