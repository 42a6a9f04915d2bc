//! The lexemes of relations and conditions.

ghost use Rattle.std.specs.Prelude.{◌≡◌, ◌++◌, ◌∷◌, [], OnOk};
ghost use Rattle.vc_syntax_tokens.specs.declared.token.Lexeme.TheVariants as lexemes;
ghost use Rattle.vc_syntax_tokens.specs.declared.token.Sign.TheVariants as signs;
ghost use Rattle.vc_syntax_tokens.specs.declared.token.Reserved.TheVariants as words;
ghost use Rattle.vc_syntax_tree.specs.Trees.{relation_of, condition_of};
ghost use Rattle.vc_syntax_print.specs.TermLexemes.{wrapped, wrapped_if, operand_lexemes};
ghost use Rattle.vc_syntax_print.specs.ConditionLexemes as prints;

use crate::leaves::{put_number, put_sign, put_text, put_variable, put_word};
use crate::terms::{put_operand, put_term};
use std::alloc::{AllocError, Global};
use vc_syntax_tokens::token::{Lexeme, Reserved, Sign};
use vc_syntax_tree::{Condition, Item, NameLeaf, Operand, Relation, Relator, SignedNumber};
use vc_value::Listed;

fn put_signed(out: &mut Listed<Lexeme>, signed: SignedNumber) -> Result<(), AllocError>
    ensures { OnOk result (out.new ≡ out.old ++ prints.signed_lexemes signed) }
{
    if signed.negative {
        put_sign(out, Sign::Minus)?;
        put_number(out, signed.leaf.number)
    } else {
        put_number(out, signed.leaf.number)
    }
}

fn put_interval(
    out: &mut Listed<Lexeme>,
    low: SignedNumber,
    high: SignedNumber,
) -> Result<(), AllocError>
    ensures { OnOk result (out.new ≡ out.old
        ++ (prints.signed_lexemes low ++ lexemes.Sign signs.Minus ∷ prints.signed_lexemes high)) }
{
    put_signed(out, low)?;
    put_sign(out, Sign::Minus)?;
    put_signed(out, high)
}

fn put_item(alloc: Global, out: &mut Listed<Lexeme>, item: &Item) -> Result<(), AllocError>
    ensures { OnOk result (out.new ≡ out.old ++ prints.item_lexemes item.now) }
{
    match item {
        Item::Text(leaf) => put_text(alloc, out, leaf),
        Item::Number(number) => put_signed(out, *number),
        Item::Interval(low, high) => put_interval(out, *low, *high),
    }
}

fn put_items_behind(
    alloc: Global,
    out: &mut Listed<Lexeme>,
    items: &[Item],
) -> Result<(), AllocError>
    ensures { OnOk result (out.new ≡ out.old ++ prints.each_behind signs.Comma prints.item_lexemes items.now) }
{
    let mut rest = items;
    while let [item, more @ ..] = rest {
        put_sign(out, Sign::Comma)?;
        put_item(alloc, out, item)?;
        rest = more;
    }
    Ok(())
}

fn put_items(alloc: Global, out: &mut Listed<Lexeme>, items: &[Item]) -> Result<(), AllocError>
    ensures { OnOk result (out.new ≡ out.old ++ prints.separated signs.Comma prints.item_lexemes items.now) }
{
    match items {
        [item, more @ ..] => {
            put_item(alloc, out, item)?;
            put_items_behind(alloc, out, more)
        }
        [] => Ok(()),
    }
}

fn put_wrapped_items(
    alloc: Global,
    out: &mut Listed<Lexeme>,
    items: &[Item],
) -> Result<(), AllocError>
    ensures { OnOk result (out.new ≡ out.old ++ wrapped (prints.separated signs.Comma prints.item_lexemes items.now)) }
{
    put_sign(out, Sign::OpenParen)?;
    put_items(alloc, out, items)?;
    put_sign(out, Sign::CloseParen)
}

fn put_within(
    alloc: Global,
    out: &mut Listed<Lexeme>,
    operand: &Operand,
    items: &[Item],
) -> Result<(), AllocError>
    ensures { OnOk result (out.new ≡ out.old ++ (operand_lexemes operand.now
        ++ lexemes.Reserved words.In ∷ wrapped (prints.separated signs.Comma prints.item_lexemes items.now))) }
{
    put_operand(alloc, out, operand)?;
    put_word(out, Reserved::In)?;
    put_wrapped_items(alloc, out, items)
}

fn relator_sign(relator: Relator) -> Sign
    ensures { result ≡ prints.relator_sign relator }
{
    match relator {
        Relator::Equal => Sign::Equal,
        Relator::Unequal => Sign::Unequal,
        Relator::Less => Sign::Less,
        Relator::LessEqual => Sign::LessEqual,
        Relator::Greater => Sign::Greater,
        Relator::GreaterEqual => Sign::GreaterEqual,
    }
}

/// Puts a relation.
pub fn put_relation(
    alloc: Global,
    out: &mut Listed<Lexeme>,
    relation: &Relation,
) -> Result<(), AllocError>
    ensures { OnOk result (out.new ≡ out.old ++ prints.relation_lexemes (relation_of relation.now)) }
{
    match relation {
        Relation::Compared(left, relator, right) => {
            put_term(alloc, out, left)?;
            put_sign(out, relator_sign(*relator))?;
            put_term(alloc, out, right)
        }
        Relation::Within(operand, items) => put_within(alloc, out, operand.get(), items.as_slice()),
    }
}

fn put_two_variables(
    alloc: Global,
    out: &mut Listed<Lexeme>,
    part: &NameLeaf,
    whole: &NameLeaf,
) -> Result<(), AllocError>
    ensures { OnOk result (out.new ≡ out.old
        ++ lexemes.Variable part.now.name ∷ lexemes.Sign signs.Comma ∷ lexemes.Variable whole.now.name ∷ []) }
{
    put_variable(alloc, out, part)?;
    put_sign(out, Sign::Comma)?;
    put_variable(alloc, out, whole)
}

fn put_part_of(
    alloc: Global,
    out: &mut Listed<Lexeme>,
    part: &NameLeaf,
    whole: &NameLeaf,
) -> Result<(), AllocError>
    ensures { OnOk result (out.new ≡ out.old ++ lexemes.Reserved words.PartOf ∷ wrapped
        (lexemes.Variable part.now.name ∷ lexemes.Sign signs.Comma ∷ lexemes.Variable whole.now.name ∷ [])) }
{
    put_word(out, Reserved::PartOf)?;
    put_sign(out, Sign::OpenParen)?;
    put_two_variables(alloc, out, part, whole)?;
    put_sign(out, Sign::CloseParen)
}

fn is_or(condition: &Condition) -> bool
    ensures { result ≡ prints.is_or (condition_of condition.now) }
{
    matches!(condition, Condition::Or(..))
}

fn is_joined(condition: &Condition) -> bool
    ensures { result ≡ prints.is_joined (condition_of condition.now) }
{
    matches!(condition, Condition::Or(..) | Condition::And(..))
}

// Puts a condition, between parentheses or not.
#[cycle(conditions)]
fn put_side(
    alloc: Global,
    out: &mut Listed<Lexeme>,
    condition: &Condition,
    needs: bool,
) -> Result<(), AllocError>
    ensures { OnOk result (out.new ≡ out.old
        ++ wrapped_if needs (prints.condition_lexemes (condition_of condition.now))) }
{
    if needs {
        put_sign(out, Sign::OpenParen)?;
        put_condition(alloc, out, condition)?;
        put_sign(out, Sign::CloseParen)
    } else {
        put_condition(alloc, out, condition)
    }
}

/// Puts a condition.
#[cycle(conditions)]
pub fn put_condition(
    alloc: Global,
    out: &mut Listed<Lexeme>,
    condition: &Condition,
) -> Result<(), AllocError>
    ensures { OnOk result (out.new ≡ out.old ++ prints.condition_lexemes (condition_of condition.now)) }
{
    match condition {
        Condition::Or(left, right) => {
            put_condition(alloc, out, left)?;
            put_word(out, Reserved::Or)?;
            put_side(alloc, out, right, is_or(right))
        }
        Condition::And(left, right) => {
            put_side(alloc, out, left, is_or(left))?;
            put_word(out, Reserved::And)?;
            put_side(alloc, out, right, is_joined(right))
        }
        Condition::Not(condition) => {
            put_word(out, Reserved::Not)?;
            put_side(alloc, out, condition, is_joined(condition))
        }
        Condition::Relation(relation) => put_relation(alloc, out, relation),
        Condition::Specified(operand) => {
            put_word(out, Reserved::Specified)?;
            put_operand(alloc, out, operand)
        }
        Condition::PartOf(part, whole) => put_part_of(alloc, out, part.get(), whole),
    }
}
