//! From lexemes to their canonical text.

ghost use Rattle.std.specs.Prelude.{◌≡◌, ◌++◌, true, List, Ok, map, IfOk, OnOk};
ghost use Rattle.vc_value.specs.Numerals.{number_text};
ghost use Rattle.vc_syntax_tokens.specs.declared.token.Lexeme.{Lexeme};
ghost use Rattle.vc_syntax_tokens.specs.declared.token.Token.{Token};
ghost use Rattle.vc_syntax_tokens.specs.Tokens.{tokens_of};
ghost use Rattle.vc_syntax_tokens.specs.Written.{are_lexemes};
ghost use Rattle.vc_syntax_tokens.specs.Texts as texts;

use crate::spelling::{dollar_spelling, reserved_spelling, sign_spelling};
use crate::token::{Lexeme, Sign};
use std::alloc::{AllocError, Global};
use vc_value::{Dec, Word};

/// The canonical text of lexemes that some text has is cut into the same lexemes again.
pub fn text_is_cut_again()
    ensures { (lexemes : List Lexeme) → are_lexemes lexemes ≡ true → (tokens : List Token)
        × (tokens_of (texts.text_of lexemes) ≡ Ok tokens) × (map (λ token. token.lexeme) tokens ≡ lexemes) }
{}

// Puts a text's byte, a quote twice.
fn put_text_byte(out: &mut Word, byte: u8) -> Result<(), AllocError>
    ensures { OnOk result (out.new ≡ out.old ++ texts.doubled_byte byte) }
{
    if byte == b'\'' {
        return out.append_text("''");
    }
    out.append(&[byte])
}

// Puts a text with each quote doubled.
fn put_doubled(out: &mut Word, text: &[u8]) -> Result<(), AllocError>
    ensures { OnOk result (out.new ≡ out.old ++ texts.doubled text.now) }
{
    let mut rest = text;
    while let [byte, more @ ..] = rest {
        put_text_byte(out, *byte)?;
        rest = more;
    }
    Ok(())
}

fn put_quoted(out: &mut Word, text: &[u8]) -> Result<(), AllocError>
    ensures { OnOk result (out.new ≡ out.old ++ texts.quoted text.now) }
{
    out.append_text("'")?;
    put_doubled(out, text)?;
    out.append_text("'")
}

fn put_marked(out: &mut Word, mark: &str, word: &[u8]) -> Result<(), AllocError>
    ensures { OnOk result (out.new ≡ out.old ++ (mark.now ++ word.now)) }
{
    out.append_text(mark)?;
    out.append(word)
}

fn put_number(alloc: Global, out: &mut Word, number: Dec) -> Result<(), AllocError>
    ensures { OnOk result (out.new ≡ out.old ++ number_text number) }
{
    let text = number.print(alloc)?;
    out.append(text.bytes())
}

fn put_lexeme(alloc: Global, out: &mut Word, lexeme: &Lexeme) -> Result<(), AllocError>
    ensures { OnOk result (out.new ≡ out.old ++ texts.lexeme_text lexeme.now) }
{
    match lexeme {
        Lexeme::Name(word) => out.append(word.bytes()),
        Lexeme::Reserved(word) => out.append_text(reserved_spelling(*word)),
        Lexeme::Variable(word) => put_marked(out, "?", word.bytes()),
        Lexeme::Dollar(word) => put_marked(out, "$", dollar_spelling(*word).as_bytes()),
        Lexeme::Text(text) => put_quoted(out, text.bytes()),
        Lexeme::Number(number) => put_number(alloc, out, *number),
        Lexeme::Sign(sign) => out.append_text(sign_spelling(*sign)),
    }
}

fn is_dot(lexeme: &Lexeme) -> bool
    ensures { result ≡ texts.is_dot lexeme.now }
{
    matches!(lexeme, Lexeme::Sign(Sign::Dot))
}

fn is_period(lexeme: &Lexeme) -> bool
    ensures { result ≡ texts.is_period lexeme.now }
{
    matches!(lexeme, Lexeme::Sign(Sign::Period))
}

// What stands between two lexemes.
fn gap(lexeme: &Lexeme, next: &Lexeme) -> &'static str
    ensures { result.now ≡ texts.gap lexeme.now next.now }
{
    if is_dot(lexeme) || is_dot(next) {
        ""
    } else if is_period(lexeme) {
        "\n"
    } else {
        " "
    }
}

fn gap_after(lexeme: &Lexeme, following: &[Lexeme]) -> &'static str
    ensures { result.now ≡ texts.gap_after lexeme.now following.now }
{
    match following {
        [next, ..] => gap(lexeme, next),
        [] => "",
    }
}

/// The lexemes' canonical text: a space between two, but none round a dot, and a line's end after each
/// period but the last.
pub fn text_of(alloc: Global, lexemes: &[Lexeme]) -> Result<Word, AllocError>
    ensures { IfOk result (λ text. text ≡ texts.text_of lexemes.now) }
{
    let mut text = Word::new(alloc);
    let mut rest = lexemes;
    while let [lexeme, more @ ..] = rest {
        put_lexeme(alloc, &mut text, lexeme)?;
        text.append_text(gap_after(lexeme, more))?;
        rest = more;
    }
    Ok(text)
}
