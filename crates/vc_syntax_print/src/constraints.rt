//! The lexemes of constraints.

ghost use Rattle.std.specs.Prelude.{◌≡◌, ◌++◌, ◌∷◌, [], map, option_map, OnOk};
ghost use Rattle.vc_syntax_tokens.specs.declared.token.Lexeme.TheVariants as lexemes;
ghost use Rattle.vc_syntax_tokens.specs.declared.token.Sign.TheVariants as signs;
ghost use Rattle.vc_syntax_tokens.specs.declared.token.Reserved.TheVariants as words;
ghost use Rattle.vc_syntax_tokens.specs.Lexemes.{lexeme_of_word};
ghost use Rattle.vc_syntax_tree.specs.Trees.{condition_of, restriction_of, constraint_of};
ghost use Rattle.vc_syntax_print.specs.TermLexemes.{wrapped, operand_lexemes};
ghost use Rattle.vc_syntax_print.specs.ConditionLexemes.{each_behind, separated};
ghost use Rattle.vc_syntax_print.specs.StatementLexemes.{restriction_lexemes};
ghost use Rattle.vc_syntax_print.specs.ConstraintLexemes as prints;

use crate::conditions::put_condition;
use crate::leaves::{
    put_any_name, put_name, put_number, put_sign, put_text, put_variable, put_word,
};
use crate::statements::put_restrictions;
use crate::terms::put_operand;
use std::alloc::{AllocError, Global};
use vc_syntax_tokens::token::{Lexeme, Reserved, Sign};
use vc_syntax_tree::{
    Alias, Condition, Constraint, NameLeaf, Object, ObjectKind, Operand, Restriction, TextLeaf,
};
use vc_value::{Dec, Listed};

/// The type of a class that objects have, 300.
const CLASS_TYPE: Dec = Dec {
    millionths: 300_000_000,
};

// Puts `( 300 )`.
fn put_class_type(out: &mut Listed<Lexeme>) -> Result<(), AllocError>
    ensures { OnOk result (out.new ≡ out.old ++ wrapped (lexemes.Number prints.class_type ∷ [])) }
{
    put_sign(out, Sign::OpenParen)?;
    put_number(out, CLASS_TYPE)?;
    put_sign(out, Sign::CloseParen)
}

fn put_class(alloc: Global, out: &mut Listed<Lexeme>, name: &NameLeaf) -> Result<(), AllocError>
    ensures { OnOk result (out.new ≡ out.old ++ lexemes.Reserved words.IsA ∷
        (wrapped (lexemes.Number prints.class_type ∷ []) ++ lexeme_of_word name.now.name ∷ [])) }
{
    put_word(out, Reserved::IsA)?;
    put_class_type(out)?;
    put_any_name(alloc, out, name)
}

// Puts `( MATERIAL )`.
fn put_material_word(out: &mut Listed<Lexeme>) -> Result<(), AllocError>
    ensures { OnOk result (out.new ≡ out.old ++ wrapped (lexemes.Reserved words.Material ∷ [])) }
{
    put_sign(out, Sign::OpenParen)?;
    put_word(out, Reserved::Material)?;
    put_sign(out, Sign::CloseParen)
}

fn put_nr_is(alloc: Global, out: &mut Listed<Lexeme>, text: &TextLeaf) -> Result<(), AllocError>
    ensures { OnOk result (out.new ≡ out.old
        ++ lexemes.Reserved words.Nr ∷ lexemes.Sign signs.Equal ∷ lexemes.Text text.now.text ∷ []) }
{
    put_word(out, Reserved::Nr)?;
    put_sign(out, Sign::Equal)?;
    put_text(alloc, out, text)
}

// Puts `( NR = 'M' )`.
fn put_nr(alloc: Global, out: &mut Listed<Lexeme>, text: &TextLeaf) -> Result<(), AllocError>
    ensures { OnOk result (out.new ≡ out.old
        ++ wrapped (lexemes.Reserved words.Nr ∷ lexemes.Sign signs.Equal ∷ lexemes.Text text.now.text ∷ [])) }
{
    put_sign(out, Sign::OpenParen)?;
    put_nr_is(alloc, out, text)?;
    put_sign(out, Sign::CloseParen)
}

fn put_material(alloc: Global, out: &mut Listed<Lexeme>, text: &TextLeaf) -> Result<(), AllocError>
    ensures { OnOk result (out.new ≡ out.old ++ prints.kind_lexemes (ObjectKind.Material text.now)) }
{
    put_word(out, Reserved::IsObject)?;
    put_material_word(out)?;
    put_class_type(out)?;
    put_nr(alloc, out, text)
}

fn put_kind(alloc: Global, out: &mut Listed<Lexeme>, kind: &ObjectKind) -> Result<(), AllocError>
    ensures { OnOk result (out.new ≡ out.old ++ prints.kind_lexemes kind.now) }
{
    match kind {
        ObjectKind::Class(name) => put_class(alloc, out, name),
        ObjectKind::Material(text) => put_material(alloc, out, text),
    }
}

fn put_alias(alloc: Global, out: &mut Listed<Lexeme>, alias: &Alias) -> Result<(), AllocError>
    ensures { OnOk result (out.new ≡ out.old ++ prints.alias_lexemes alias.now) }
{
    put_variable(alloc, out, &alias.variable)?;
    put_sign(out, Sign::Equal)?;
    put_name(alloc, out, &alias.characteristic)
}

fn put_aliases_behind(
    alloc: Global,
    out: &mut Listed<Lexeme>,
    aliases: &[Alias],
) -> Result<(), AllocError>
    ensures { OnOk result (out.new ≡ out.old ++ each_behind signs.Semicolon prints.alias_lexemes aliases.now) }
{
    let mut rest = aliases;
    while let [alias, more @ ..] = rest {
        put_sign(out, Sign::Semicolon)?;
        put_alias(alloc, out, alias)?;
        rest = more;
    }
    Ok(())
}

fn put_where(alloc: Global, out: &mut Listed<Lexeme>, aliases: &[Alias]) -> Result<(), AllocError>
    ensures { OnOk result (out.new ≡ out.old ++ prints.where_lexemes aliases.now) }
{
    match aliases {
        [alias, more @ ..] => {
            put_word(out, Reserved::Where)?;
            put_alias(alloc, out, alias)?;
            put_aliases_behind(alloc, out, more)
        }
        [] => Ok(()),
    }
}

fn put_object(alloc: Global, out: &mut Listed<Lexeme>, object: &Object) -> Result<(), AllocError>
    ensures { OnOk result (out.new ≡ out.old ++ prints.object_lexemes object.now) }
{
    put_variable(alloc, out, &object.variable)?;
    put_kind(alloc, out, &object.kind)?;
    put_where(alloc, out, object.aliases.as_slice())
}

fn put_objects_behind(
    alloc: Global,
    out: &mut Listed<Lexeme>,
    objects: &[Object],
) -> Result<(), AllocError>
    ensures { OnOk result (out.new ≡ out.old ++ each_behind signs.Comma prints.object_lexemes objects.now) }
{
    let mut rest = objects;
    while let [object, more @ ..] = rest {
        put_sign(out, Sign::Comma)?;
        put_object(alloc, out, object)?;
        rest = more;
    }
    Ok(())
}

fn put_objects(
    alloc: Global,
    out: &mut Listed<Lexeme>,
    objects: &[Object],
) -> Result<(), AllocError>
    ensures { OnOk result (out.new ≡ out.old ++ separated signs.Comma prints.object_lexemes objects.now) }
{
    match objects {
        [object, more @ ..] => {
            put_object(alloc, out, object)?;
            put_objects_behind(alloc, out, more)
        }
        [] => Ok(()),
    }
}

fn put_operands_behind(
    alloc: Global,
    out: &mut Listed<Lexeme>,
    operands: &[Operand],
) -> Result<(), AllocError>
    ensures { OnOk result (out.new ≡ out.old ++ each_behind signs.Comma operand_lexemes operands.now) }
{
    let mut rest = operands;
    while let [operand, more @ ..] = rest {
        put_sign(out, Sign::Comma)?;
        put_operand(alloc, out, operand)?;
        rest = more;
    }
    Ok(())
}

// Puts a section's word and its colon.
fn put_head(out: &mut Listed<Lexeme>, word: Reserved) -> Result<(), AllocError>
    ensures { OnOk result (out.new ≡ out.old ++ lexemes.Reserved word ∷ lexemes.Sign signs.Colon ∷ []) }
{
    put_word(out, word)?;
    put_sign(out, Sign::Colon)
}

fn put_object_section(
    alloc: Global,
    out: &mut Listed<Lexeme>,
    objects: &[Object],
) -> Result<(), AllocError>
    ensures { OnOk result (out.new ≡ out.old
        ++ prints.section_lexemes words.Objects (separated signs.Comma prints.object_lexemes objects.now)) }
{
    put_head(out, Reserved::Objects)?;
    put_objects(alloc, out, objects)?;
    put_sign(out, Sign::Period)
}

fn put_condition_section(
    alloc: Global,
    out: &mut Listed<Lexeme>,
    condition: &Option<Box<Condition>>,
) -> Result<(), AllocError>
    ensures { OnOk result (out.new ≡ out.old
        ++ prints.condition_section (option_map (λ boxed. condition_of boxed.value) condition.now)) }
{
    match condition {
        Some(condition) => {
            put_head(out, Reserved::Condition)?;
            put_condition(alloc, out, condition)?;
            put_sign(out, Sign::Period)
        }
        None => Ok(()),
    }
}

fn put_restriction_section(
    alloc: Global,
    out: &mut Listed<Lexeme>,
    restrictions: &[Restriction],
) -> Result<(), AllocError>
    ensures { OnOk result (out.new ≡ out.old ++ prints.section_lexemes words.Restrictions
        (separated signs.Comma restriction_lexemes (map restriction_of restrictions.now))) }
{
    put_head(out, Reserved::Restrictions)?;
    put_restrictions(alloc, out, restrictions)?;
    put_sign(out, Sign::Period)
}

fn put_inferred(
    alloc: Global,
    out: &mut Listed<Lexeme>,
    operand: &Operand,
    more: &[Operand],
) -> Result<(), AllocError>
    ensures { OnOk result (out.new ≡ out.old ++ separated signs.Comma operand_lexemes (operand.now ∷ more.now)) }
{
    put_operand(alloc, out, operand)?;
    put_operands_behind(alloc, out, more)
}

fn put_inference_section(
    alloc: Global,
    out: &mut Listed<Lexeme>,
    operands: &[Operand],
) -> Result<(), AllocError>
    ensures { OnOk result (out.new ≡ out.old ++ prints.inference_section operands.now) }
{
    match operands {
        [operand, more @ ..] => {
            put_head(out, Reserved::Inferences)?;
            put_inferred(alloc, out, operand, more)?;
            put_sign(out, Sign::Period)
        }
        [] => Ok(()),
    }
}

/// Puts the sections of a constraint.
pub fn put_constraint(
    alloc: Global,
    out: &mut Listed<Lexeme>,
    constraint: &Constraint,
) -> Result<(), AllocError>
    ensures { OnOk result (out.new ≡ out.old ++ prints.constraint_lexemes (constraint_of constraint.now)) }
{
    put_object_section(alloc, out, constraint.objects.as_slice())?;
    put_condition_section(alloc, out, &constraint.condition)?;
    put_restriction_section(alloc, out, constraint.restrictions.as_slice())?;
    put_inference_section(alloc, out, constraint.inferences.as_slice())
}
