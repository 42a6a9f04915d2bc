//! Constraints, read from tokens.

ghost use Rattle.std.specs.Prelude.{◌≡◌, map, option_map};
ghost use Rattle.vc_syntax_terms.specs.Reading.{Gives, listed};
ghost use Rattle.vc_syntax_terms.specs.TermReading as terms;
ghost use Rattle.vc_syntax.specs.ConstraintReading as reads;
ghost use Rattle.vc_syntax_tree.specs.Trees.{condition_of, restriction_of, constraint_of};
ghost use Rattle.vc_syntax_tokens.specs.declared.token.Sign.TheVariants as signs;

use crate::statements::restrictions;
use std::alloc::Global;
use vc_syntax_terms::conditions::{condition, text_ahead, variable_ahead};
use vc_syntax_terms::reading::{
    ReadFault, after_sign, after_word, any_named, named, sign_ahead, word_ahead,
};
use vc_syntax_terms::terms::operand;
use vc_syntax_tokens::token::{Lexeme, Reserved, Sign, Token};
use vc_syntax_tree::{Alias, Condition, Constraint, Object, ObjectKind, Operand, Restriction};
use vc_value::Listed;

// What follows 300, where the tokens begin with it.
fn after_class_type(tokens: &[Token]) -> Result<&[Token], ReadFault>
    ensures { Gives (λ rest. rest.now) result (reads.after_class_type tokens.now) }
{
    match tokens {
        [
            Token {
                lexeme: Lexeme::Number(number),
                ..
            },
            rest @ ..,
        ] if number.millionths == 300_000_000 => Ok(rest),
        _ => Err(ReadFault::Ungrammatical),
    }
}

fn class_type(tokens: &[Token]) -> Result<&[Token], ReadFault>
    ensures { Gives (λ rest. rest.now) result (reads.class_type tokens.now) }
{
    let rest = after_sign(Sign::OpenParen, tokens)?;
    let rest = after_class_type(rest)?;
    let rest = after_sign(Sign::CloseParen, rest)?;
    Ok(rest)
}

fn material_word(tokens: &[Token]) -> Result<&[Token], ReadFault>
    ensures { Gives (λ rest. rest.now) result (reads.material_word tokens.now) }
{
    let rest = after_sign(Sign::OpenParen, tokens)?;
    let rest = after_word(Reserved::Material, rest)?;
    let rest = after_sign(Sign::CloseParen, rest)?;
    Ok(rest)
}

fn class_kind(alloc: Global, tokens: &[Token]) -> Result<(ObjectKind, &[Token]), ReadFault>
    ensures { Gives (λ x. (x.0, x.1.now)) result (reads.class_kind tokens.now) }
{
    let rest = class_type(tokens)?;
    let (name, rest) = any_named(alloc, rest)?;
    Ok((ObjectKind::Class(name), rest))
}

fn material_number(alloc: Global, tokens: &[Token]) -> Result<(ObjectKind, &[Token]), ReadFault>
    ensures { Gives (λ x. (x.0, x.1.now)) result (reads.material_number tokens.now) }
{
    let rest = after_sign(Sign::OpenParen, tokens)?;
    let rest = after_word(Reserved::Nr, rest)?;
    let rest = after_sign(Sign::Equal, rest)?;
    let (text, rest) = text_ahead(alloc, rest)?;
    let rest = after_sign(Sign::CloseParen, rest)?;
    Ok((ObjectKind::Material(text), rest))
}

fn material_kind(alloc: Global, tokens: &[Token]) -> Result<(ObjectKind, &[Token]), ReadFault>
    ensures { Gives (λ x. (x.0, x.1.now)) result (reads.material_kind tokens.now) }
{
    let rest = material_word(tokens)?;
    let rest = class_type(rest)?;
    material_number(alloc, rest)
}

fn object_kind(alloc: Global, tokens: &[Token]) -> Result<(ObjectKind, &[Token]), ReadFault>
    ensures { Gives (λ x. (x.0, x.1.now)) result (reads.object_kind tokens.now) }
{
    match word_ahead(Reserved::IsA, tokens) {
        Some(rest) => class_kind(alloc, rest),
        None => {
            let rest = after_word(Reserved::IsObject, tokens)?;
            material_kind(alloc, rest)
        }
    }
}

fn alias(alloc: Global, tokens: &[Token]) -> Result<(Alias, &[Token]), ReadFault>
    ensures { Gives (λ x. (x.0, x.1.now)) result (reads.alias tokens.now) }
{
    let (variable, rest) = variable_ahead(alloc, tokens)?;
    let rest = after_sign(Sign::Equal, rest)?;
    let (characteristic, rest) = named(alloc, rest)?;
    Ok((
        Alias {
            variable,
            characteristic,
        },
        rest,
    ))
}

fn aliases_behind(alloc: Global, tokens: &[Token]) -> Result<(Listed<Alias>, &[Token]), ReadFault>
    ensures { Gives (λ x. (x.0, x.1.now)) result (listed signs.Semicolon reads.alias tokens.now) }
{
    let mut aliases = Listed::new(alloc);
    let (first, mut rest) = alias(alloc, tokens)?;
    aliases.push(first)?;
    while let Some(after) = sign_ahead(Sign::Semicolon, rest) {
        let (next, after) = alias(alloc, after)?;
        aliases.push(next)?;
        rest = after;
    }
    Ok((aliases, rest))
}

fn aliases(alloc: Global, tokens: &[Token]) -> Result<(Listed<Alias>, &[Token]), ReadFault>
    ensures { Gives (λ x. (x.0, x.1.now)) result (reads.aliases tokens.now) }
{
    match word_ahead(Reserved::Where, tokens) {
        Some(rest) => aliases_behind(alloc, rest),
        None => Ok((Listed::new(alloc), tokens)),
    }
}

fn object(alloc: Global, tokens: &[Token]) -> Result<(Object, &[Token]), ReadFault>
    ensures { Gives (λ x. (x.0, x.1.now)) result (reads.object tokens.now) }
{
    let (variable, rest) = variable_ahead(alloc, tokens)?;
    let (kind, rest) = object_kind(alloc, rest)?;
    let (aliases, rest) = aliases(alloc, rest)?;
    Ok((
        Object {
            variable,
            kind,
            aliases,
        },
        rest,
    ))
}

fn objects(alloc: Global, tokens: &[Token]) -> Result<(Listed<Object>, &[Token]), ReadFault>
    ensures { Gives (λ x. (x.0, x.1.now)) result (listed signs.Comma reads.object tokens.now) }
{
    let mut objects = Listed::new(alloc);
    let (first, mut rest) = object(alloc, tokens)?;
    objects.push(first)?;
    while let Some(after) = sign_ahead(Sign::Comma, rest) {
        let (next, after) = object(alloc, after)?;
        objects.push(next)?;
        rest = after;
    }
    Ok((objects, rest))
}

fn operands(alloc: Global, tokens: &[Token]) -> Result<(Listed<Operand>, &[Token]), ReadFault>
    ensures { Gives (λ x. (x.0, x.1.now)) result (listed signs.Comma terms.operand tokens.now) }
{
    let mut operands = Listed::new(alloc);
    let (first, mut rest) = operand(alloc, tokens)?;
    operands.push(first)?;
    while let Some(after) = sign_ahead(Sign::Comma, rest) {
        let (next, after) = operand(alloc, after)?;
        operands.push(next)?;
        rest = after;
    }
    Ok((operands, rest))
}

fn object_section(alloc: Global, tokens: &[Token]) -> Result<(Listed<Object>, &[Token]), ReadFault>
    ensures { Gives (λ x. (x.0, x.1.now)) result (reads.object_section tokens.now) }
{
    let rest = after_word(Reserved::Objects, tokens)?;
    let rest = after_sign(Sign::Colon, rest)?;
    let (objects, rest) = objects(alloc, rest)?;
    let rest = after_sign(Sign::Period, rest)?;
    Ok((objects, rest))
}

fn condition_section(
    alloc: Global,
    tokens: &[Token],
    left: u32,
) -> Result<(Option<Box<Condition>>, &[Token]), ReadFault>
    ensures { Gives (λ x. (option_map (λ b. condition_of b.value) x.0, x.1.now)) result
        (reads.condition_section left tokens.now) }
{
    match word_ahead(Reserved::Condition, tokens) {
        Some(rest) => {
            let rest = after_sign(Sign::Colon, rest)?;
            let (condition, rest) = condition(alloc, rest, left)?;
            let rest = after_sign(Sign::Period, rest)?;
            Ok((Some(condition), rest))
        }
        None => Ok((None, tokens)),
    }
}

fn restriction_word(tokens: &[Token]) -> Result<&[Token], ReadFault>
    ensures { Gives (λ rest. rest.now) result (reads.restriction_word tokens.now) }
{
    match word_ahead(Reserved::Restriction, tokens) {
        Some(rest) => Ok(rest),
        None => after_word(Reserved::Restrictions, tokens),
    }
}

// The restrictions without room to spare, as a constraint may have thousands.
fn fitted(restrictions: Listed<Restriction>) -> Listed<Restriction>
    ensures { result ≡ restrictions }
{
    let mut inner = restrictions.into_vec();
    inner.shrink_to_fit();
    Listed::from_vec(inner)
}

fn restriction_section(
    alloc: Global,
    tokens: &[Token],
    left: u32,
) -> Result<(Listed<Restriction>, &[Token]), ReadFault>
    ensures { Gives (λ x. (map restriction_of x.0, x.1.now)) result (reads.restriction_section left tokens.now) }
{
    let rest = restriction_word(tokens)?;
    let rest = after_sign(Sign::Colon, rest)?;
    let (restrictions, rest) = restrictions(alloc, rest, left)?;
    let rest = after_sign(Sign::Period, rest)?;
    Ok((fitted(restrictions), rest))
}

fn inference_section(
    alloc: Global,
    tokens: &[Token],
) -> Result<(Listed<Operand>, &[Token]), ReadFault>
    ensures { Gives (λ x. (x.0, x.1.now)) result (reads.inference_section tokens.now) }
{
    match word_ahead(Reserved::Inferences, tokens) {
        Some(rest) => {
            let rest = after_sign(Sign::Colon, rest)?;
            let (operands, rest) = operands(alloc, rest)?;
            let rest = after_sign(Sign::Period, rest)?;
            Ok((operands, rest))
        }
        None => Ok((Listed::new(alloc), tokens)),
    }
}

/// The constraint in front, its terms and conditions nested less deep than the bound, and what follows it.
pub fn constraint(
    alloc: Global,
    tokens: &[Token],
    left: u32,
) -> Result<(Constraint, &[Token]), ReadFault>
    ensures { Gives (λ x. (constraint_of x.0, x.1.now)) result (reads.constraint left tokens.now) }
{
    let (objects, rest) = object_section(alloc, tokens)?;
    let (condition, rest) = condition_section(alloc, rest, left)?;
    let (restrictions, rest) = restriction_section(alloc, rest, left)?;
    let (inferences, rest) = inference_section(alloc, rest)?;
    Ok((
        Constraint {
            objects,
            condition,
            restrictions,
            inferences,
        },
        rest,
    ))
}
