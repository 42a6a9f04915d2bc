//! Single lexemes, put to those before them.

ghost use Rattle.std.specs.Prelude.{◌≡◌, [], ◌∷◌, ◌++◌, OnOk};
ghost use Rattle.vc_syntax_tokens.specs.Lexemes.{lexeme_of_word};
ghost use Rattle.vc_syntax_tokens.specs.declared.token.Lexeme.TheVariants as lexemes;

use std::alloc::{AllocError, Global};
use vc_syntax_tokens::lexing::lexeme_of_word;
use vc_syntax_tokens::token::{Dollar, Lexeme, Reserved, Sign};
use vc_syntax_tree::{NameLeaf, TextLeaf};
use vc_value::{Dec, Listed, Word};

/// Puts a sign.
pub fn put_sign(out: &mut Listed<Lexeme>, sign: Sign) -> Result<(), AllocError>
    ensures { OnOk result (out.new ≡ out.old ++ lexemes.Sign sign ∷ []) }
{
    out.push(Lexeme::Sign(sign))
}

/// Puts a reserved word.
pub fn put_word(out: &mut Listed<Lexeme>, word: Reserved) -> Result<(), AllocError>
    ensures { OnOk result (out.new ≡ out.old ++ lexemes.Reserved word ∷ []) }
{
    out.push(Lexeme::Reserved(word))
}

/// Puts a word that begins with `$`.
pub fn put_dollar(out: &mut Listed<Lexeme>, word: Dollar) -> Result<(), AllocError>
    ensures { OnOk result (out.new ≡ out.old ++ lexemes.Dollar word ∷ []) }
{
    out.push(Lexeme::Dollar(word))
}

/// Puts a number.
pub fn put_number(out: &mut Listed<Lexeme>, number: Dec) -> Result<(), AllocError>
    ensures { OnOk result (out.new ≡ out.old ++ lexemes.Number number ∷ []) }
{
    out.push(Lexeme::Number(number))
}

/// Puts a name that is no reserved word.
pub fn put_name(alloc: Global, out: &mut Listed<Lexeme>, leaf: &NameLeaf) -> Result<(), AllocError>
    ensures { OnOk result (out.new ≡ out.old ++ lexemes.Name leaf.now.name ∷ []) }
{
    let name = Word::from_bytes(alloc, leaf.name.bytes())?;
    out.push(Lexeme::Name(name))
}

/// Puts a name that may be a reserved word.
pub fn put_any_name(
    alloc: Global,
    out: &mut Listed<Lexeme>,
    leaf: &NameLeaf,
) -> Result<(), AllocError>
    ensures { OnOk result (out.new ≡ out.old ++ lexeme_of_word leaf.now.name ∷ []) }
{
    let name = Word::from_bytes(alloc, leaf.name.bytes())?;
    out.push(lexeme_of_word(name))
}

/// Puts a variable.
pub fn put_variable(
    alloc: Global,
    out: &mut Listed<Lexeme>,
    leaf: &NameLeaf,
) -> Result<(), AllocError>
    ensures { OnOk result (out.new ≡ out.old ++ lexemes.Variable leaf.now.name ∷ []) }
{
    let name = Word::from_bytes(alloc, leaf.name.bytes())?;
    out.push(Lexeme::Variable(name))
}

/// Puts a text.
pub fn put_text(alloc: Global, out: &mut Listed<Lexeme>, leaf: &TextLeaf) -> Result<(), AllocError>
    ensures { OnOk result (out.new ≡ out.old ++ lexemes.Text leaf.now.text ∷ []) }
{
    let text = Word::from_bytes(alloc, leaf.text.bytes())?;
    out.push(Lexeme::Text(text))
}
