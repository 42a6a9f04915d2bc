//! Relations and conditions, read from tokens.

ghost use Rattle.std.specs.Prelude.{Some};
ghost use Rattle.vc_syntax_terms.specs.ConditionReading as reads;
ghost use Rattle.vc_syntax_terms.specs.Reading.{Gives, made, closed, listed, or_else};
ghost use Rattle.vc_syntax_terms.specs.TermReading as terms;
ghost use Rattle.vc_syntax_tree.specs.Trees as trees;
ghost use Rattle.vc_syntax_tree.specs.Trees.{relation_of, condition_of};
ghost use Rattle.vc_syntax_tokens.specs.declared.token.Sign.TheVariants as signs;

use crate::reading::{
    ReadFault, after_sign, after_word, number_leaf, sign_ahead, text_leaf, variable_leaf,
    word_ahead,
};
use crate::terms::{operand, sum};
use std::alloc::Global;
use vc_syntax_tokens::token::{Lexeme, Reserved, Sign, Token};
use vc_syntax_tree::{
    Apart, Condition, Item, NameLeaf, NumberLeaf, Relation, Relator, SignedNumber, TextLeaf,
};
use vc_value::Listed;

fn relator_of(token: &Token) -> Result<Relator, ReadFault>
    ensures { Gives (λ relator. relator) result (reads.relator_in token.now.lexeme) }
{
    match &token.lexeme {
        Lexeme::Sign(Sign::Equal) | Lexeme::Reserved(Reserved::Eq) => Ok(Relator::Equal),
        Lexeme::Sign(Sign::Unequal) | Lexeme::Reserved(Reserved::Ne) => Ok(Relator::Unequal),
        Lexeme::Sign(Sign::Less) | Lexeme::Reserved(Reserved::Lt) => Ok(Relator::Less),
        Lexeme::Sign(Sign::LessEqual) | Lexeme::Reserved(Reserved::Le) => Ok(Relator::LessEqual),
        Lexeme::Sign(Sign::Greater) | Lexeme::Reserved(Reserved::Gt) => Ok(Relator::Greater),
        Lexeme::Sign(Sign::GreaterEqual) | Lexeme::Reserved(Reserved::Ge) => Ok(
            Relator::GreaterEqual,
        ),
        _ => Err(ReadFault::Ungrammatical),
    }
}

fn relator(tokens: &[Token]) -> Result<(Relator, &[Token]), ReadFault>
    ensures { Gives (λ x. (x.0, x.1.now)) result (reads.relator tokens.now) }
{
    match tokens {
        [token, rest @ ..] => Ok((relator_of(token)?, rest)),
        [] => Err(ReadFault::Ungrammatical),
    }
}

/// The text in front, and what follows it.
pub fn text_ahead(alloc: Global, tokens: &[Token]) -> Result<(TextLeaf, &[Token]), ReadFault>
    ensures { Gives (λ x. (x.0, x.1.now)) result (reads.text_ahead tokens.now) }
{
    match tokens {
        [token, rest @ ..] => Ok((text_leaf(alloc, token)?, rest)),
        [] => Err(ReadFault::Ungrammatical),
    }
}

/// The number in front, and what follows it.
pub fn number_ahead(tokens: &[Token]) -> Result<(NumberLeaf, &[Token]), ReadFault>
    ensures { Gives (λ x. (x.0, x.1.now)) result (reads.number_ahead tokens.now) }
{
    match tokens {
        [token, rest @ ..] => Ok((number_leaf(token)?, rest)),
        [] => Err(ReadFault::Ungrammatical),
    }
}

/// The variable in front, and what follows it.
pub fn variable_ahead(alloc: Global, tokens: &[Token]) -> Result<(NameLeaf, &[Token]), ReadFault>
    ensures { Gives (λ x. (x.0, x.1.now)) result (reads.variable_ahead tokens.now) }
{
    match tokens {
        [token, rest @ ..] => Ok((variable_leaf(alloc, token)?, rest)),
        [] => Err(ReadFault::Ungrammatical),
    }
}

fn signed_number(tokens: &[Token]) -> Result<(SignedNumber, &[Token]), ReadFault>
    ensures { Gives (λ x. (x.0, x.1.now)) result (reads.signed_number tokens.now) }
{
    match sign_ahead(Sign::Minus, tokens) {
        Some(rest) => {
            let (leaf, rest) = number_ahead(rest)?;
            Ok((
                SignedNumber {
                    negative: true,
                    leaf,
                },
                rest,
            ))
        }
        None => {
            let (leaf, rest) = number_ahead(tokens)?;
            Ok((
                SignedNumber {
                    negative: false,
                    leaf,
                },
                rest,
            ))
        }
    }
}

fn numbers(tokens: &[Token]) -> Result<(Item, &[Token]), ReadFault>
    ensures { Gives (λ x. (x.0, x.1.now)) result (reads.numbers tokens.now) }
{
    let (low, rest) = signed_number(tokens)?;
    match sign_ahead(Sign::Minus, rest) {
        Some(rest) => {
            let (high, rest) = signed_number(rest)?;
            Ok((Item::Interval(low, high), rest))
        }
        None => Ok((Item::Number(low), rest)),
    }
}

fn item(alloc: Global, tokens: &[Token]) -> Result<(Item, &[Token]), ReadFault>
    ensures { Gives (λ x. (x.0, x.1.now)) result (reads.item tokens.now) }
{
    match text_ahead(alloc, tokens) {
        Ok((text, rest)) => Ok((Item::Text(text), rest)),
        Err(ReadFault::Ungrammatical) => numbers(tokens),
        Err(ReadFault::OutOfMemory) => Err(ReadFault::OutOfMemory),
    }
}

fn items(alloc: Global, tokens: &[Token]) -> Result<(Listed<Item>, &[Token]), ReadFault>
    ensures { Gives (λ x. (x.0, x.1.now)) result (listed signs.Comma reads.item tokens.now) }
{
    let mut items = Listed::new(alloc);
    let (first, mut rest) = item(alloc, tokens)?;
    items.push(first)?;
    while let Some(after) = sign_ahead(Sign::Comma, rest) {
        let (next, after) = item(alloc, after)?;
        items.push(next)?;
        rest = after;
    }
    Ok((items, rest))
}

fn comparison(alloc: Global, tokens: &[Token], left: u32) -> Result<(Relation, &[Token]), ReadFault>
    ensures { Gives (λ x. (relation_of x.0, x.1.now)) result (reads.comparison left tokens.now) }
{
    let (first, rest) = sum(alloc, tokens, left)?;
    let (relator, rest) = relator(rest)?;
    let (second, rest) = sum(alloc, rest, left)?;
    Ok((Relation::Compared(first, relator, second), rest))
}

fn within(alloc: Global, tokens: &[Token]) -> Result<(Relation, &[Token]), ReadFault>
    ensures { Gives (λ x. (relation_of x.0, x.1.now)) result (reads.within tokens.now) }
{
    let (operand, rest) = operand(alloc, tokens)?;
    let rest = after_word(Reserved::In, rest)?;
    let rest = after_sign(Sign::OpenParen, rest)?;
    let (items, rest) = items(alloc, rest)?;
    let rest = after_sign(Sign::CloseParen, rest)?;
    let operand = Apart::new(alloc, operand)?;
    Ok((Relation::Within(operand, items), rest))
}

/// The relation in front, its terms nested less deep than the bound, and what follows it.
pub fn relation(
    alloc: Global,
    tokens: &[Token],
    left: u32,
) -> Result<(Relation, &[Token]), ReadFault>
    ensures { Gives (λ x. (relation_of x.0, x.1.now)) result (reads.relation left tokens.now) }
{
    match comparison(alloc, tokens, left) {
        Ok((relation, rest)) => Ok((relation, rest)),
        Err(ReadFault::Ungrammatical) => within(alloc, tokens),
        Err(ReadFault::OutOfMemory) => Err(ReadFault::OutOfMemory),
    }
}

// The condition in memory of its own.
fn boxed(alloc: Global, condition: Condition) -> Result<Box<Condition>, ReadFault>
    ensures { Gives (λ b. condition_of b.value) result (Some (condition_of condition)) }
{
    Ok(Box::new(alloc, condition)?)
}

fn part_of(alloc: Global, tokens: &[Token]) -> Result<(Box<Condition>, &[Token]), ReadFault>
    ensures { Gives (λ x. (condition_of x.0.value, x.1.now)) result (reads.part_of tokens.now) }
{
    let rest = after_sign(Sign::OpenParen, tokens)?;
    let (part, rest) = variable_ahead(alloc, rest)?;
    let rest = after_sign(Sign::Comma, rest)?;
    let (whole, rest) = variable_ahead(alloc, rest)?;
    let rest = after_sign(Sign::CloseParen, rest)?;
    let part = Apart::new(alloc, part)?;
    let condition = boxed(alloc, Condition::PartOf(part, whole))?;
    Ok((condition, rest))
}

fn specified(alloc: Global, tokens: &[Token]) -> Result<(Box<Condition>, &[Token]), ReadFault>
    ensures { Gives (λ x. (condition_of x.0.value, x.1.now)) result (made trees.Specified (terms.operand tokens.now)) }
{
    let (operand, rest) = operand(alloc, tokens)?;
    let condition = boxed(alloc, Condition::Specified(operand))?;
    Ok((condition, rest))
}

fn specified_behind(
    alloc: Global,
    tokens: &[Token],
) -> Result<(Box<Condition>, &[Token]), ReadFault>
    ensures { Gives (λ x. (condition_of x.0.value, x.1.now)) result (reads.specified_behind tokens.now) }
{
    let (operand, rest) = operand(alloc, tokens)?;
    let rest = after_word(Reserved::Specified, rest)?;
    let condition = boxed(alloc, Condition::Specified(operand))?;
    Ok((condition, rest))
}

fn related(
    alloc: Global,
    tokens: &[Token],
    left: u32,
) -> Result<(Box<Condition>, &[Token]), ReadFault>
    ensures { Gives (λ x. (condition_of x.0.value, x.1.now)) result
        (made trees.Related (reads.relation left tokens.now)) }
{
    let (relation, rest) = relation(alloc, tokens, left)?;
    let condition = boxed(alloc, Condition::Relation(relation))?;
    Ok((condition, rest))
}

// A condition that begins with an operand or a term.
fn plain_condition(
    alloc: Global,
    tokens: &[Token],
    left: u32,
) -> Result<(Box<Condition>, &[Token]), ReadFault>
    ensures { Gives (λ x. (condition_of x.0.value, x.1.now)) result (reads.plain_condition left tokens.now) }
{
    match related(alloc, tokens, left) {
        Ok((condition, rest)) => Ok((condition, rest)),
        Err(ReadFault::Ungrammatical) => specified_behind(alloc, tokens),
        Err(ReadFault::OutOfMemory) => Err(ReadFault::OutOfMemory),
    }
}

// The condition, if a closing parenthesis follows it.
fn closed(
    condition: Box<Condition>,
    tokens: &[Token],
) -> Result<(Box<Condition>, &[Token]), ReadFault>
    ensures { Gives (λ x. (condition_of x.0.value, x.1.now)) result
        (closed (Some (condition_of condition.value, tokens.now))) }
{
    let rest = after_sign(Sign::CloseParen, tokens)?;
    Ok((condition, rest))
}

fn negated(alloc: Global, condition: Box<Condition>) -> Result<Box<Condition>, ReadFault>
    ensures { Gives (λ b. condition_of b.value) result (Some (trees.Not (condition_of condition.value))) }
{
    boxed(alloc, Condition::Not(condition))
}

fn both(
    alloc: Global,
    left: Box<Condition>,
    right: Box<Condition>,
) -> Result<Box<Condition>, ReadFault>
    ensures { Gives (λ b. condition_of b.value) result
        (Some (trees.And (condition_of left.value) (condition_of right.value))) }
{
    boxed(alloc, Condition::And(left, right))
}

fn either(
    alloc: Global,
    left: Box<Condition>,
    right: Box<Condition>,
) -> Result<Box<Condition>, ReadFault>
    ensures { Gives (λ b. condition_of b.value) result
        (Some (trees.Or (condition_of left.value) (condition_of right.value))) }
{
    boxed(alloc, Condition::Or(left, right))
}

#[cycle(conditions)]
fn negation(
    alloc: Global,
    tokens: &[Token],
    left: u32,
) -> Result<(Box<Condition>, &[Token]), ReadFault>
    ensures { Gives (λ x. (condition_of x.0.value, x.1.now)) result (reads.negation left tokens.now) }
{
    if left == 0 {
        return Err(ReadFault::Ungrammatical);
    }
    negation_below(alloc, tokens, left - 1)
}

// What stands behind NOT.
#[cycle(conditions)]
fn behind_not(
    alloc: Global,
    tokens: &[Token],
    left: u32,
) -> Result<(Box<Condition>, &[Token]), ReadFault>
    ensures { Gives (λ x. (condition_of x.0.value, x.1.now)) result (made trees.Not (reads.negation left tokens.now)) }
{
    let (condition, rest) = negation(alloc, tokens, left)?;
    let condition = negated(alloc, condition)?;
    Ok((condition, rest))
}

// A relation that begins with a parenthesis, or the condition that the parenthesis opens.
#[cycle(conditions)]
fn related_or_grouped<'a>(
    alloc: Global,
    tokens: &'a [Token],
    inside: &'a [Token],
    left: u32,
) -> Result<(Box<Condition>, &'a [Token]), ReadFault>
    ensures { Gives (λ x. (condition_of x.0.value, x.1.now)) result
        (or_else (made trees.Related (reads.relation left tokens.now)) (closed (reads.condition left inside.now))) }
{
    match related(alloc, tokens, left) {
        Ok((condition, rest)) => Ok((condition, rest)),
        Err(ReadFault::Ungrammatical) => {
            let (condition, rest) = condition(alloc, inside, left)?;
            closed(condition, rest)
        }
        Err(ReadFault::OutOfMemory) => Err(ReadFault::OutOfMemory),
    }
}

#[cycle(conditions)]
fn negation_below(
    alloc: Global,
    tokens: &[Token],
    left: u32,
) -> Result<(Box<Condition>, &[Token]), ReadFault>
    ensures { Gives (λ x. (condition_of x.0.value, x.1.now)) result
        (reads.negation_by left (reads.negation left) (reads.condition left) tokens.now) }
{
    match tokens {
        [
            Token {
                lexeme: Lexeme::Reserved(Reserved::Not),
                ..
            },
            rest @ ..,
        ] => behind_not(alloc, rest, left),
        [
            Token {
                lexeme: Lexeme::Reserved(Reserved::Specified),
                ..
            },
            rest @ ..,
        ] => specified(alloc, rest),
        [
            Token {
                lexeme: Lexeme::Reserved(Reserved::PartOf),
                ..
            },
            rest @ ..,
        ] => part_of(alloc, rest),
        [
            Token {
                lexeme: Lexeme::Sign(Sign::OpenParen),
                ..
            },
            rest @ ..,
        ] => related_or_grouped(alloc, tokens, rest, left),
        _ => plain_condition(alloc, tokens, left),
    }
}

#[cycle(conditions)]
fn conjunction(
    alloc: Global,
    tokens: &[Token],
    left: u32,
) -> Result<(Box<Condition>, &[Token]), ReadFault>
    ensures { Gives (λ x. (condition_of x.0.value, x.1.now)) result (reads.conjunction left tokens.now) }
{
    let (mut condition, mut rest) = negation(alloc, tokens, left)?;
    while let Some(after) = word_ahead(Reserved::And, rest) {
        let (right, after) = negation(alloc, after, left)?;
        condition = both(alloc, condition, right)?;
        rest = after;
    }
    Ok((condition, rest))
}

/// The condition in front, each negation nested less deep than the bound, and what follows it.
#[cycle(conditions)]
pub fn condition(
    alloc: Global,
    tokens: &[Token],
    left: u32,
) -> Result<(Box<Condition>, &[Token]), ReadFault>
    ensures { Gives (λ x. (condition_of x.0.value, x.1.now)) result (reads.condition left tokens.now) }
{
    let (mut condition, mut rest) = conjunction(alloc, tokens, left)?;
    while let Some(after) = word_ahead(Reserved::Or, rest) {
        let (right, after) = conjunction(alloc, after, left)?;
        condition = either(alloc, condition, right)?;
        rest = after;
    }
    Ok((condition, rest))
}
