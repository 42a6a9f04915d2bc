//! How many tokens a dependency may have, and how deep they may nest.

ghost use Rattle.std.specs.Prelude.{◌≡◌, ◌||◌, ◌<◌, ◌≤◌, ◌^◌, Ok, length};
ghost use Rattle.vc_syntax_tokens.specs.Tokens.{Gives, tokens_of};
ghost use Rattle.vc_syntax_tokens.specs.Limits as limits;
ghost use Rattle.vc_syntax_tokens.specs.declared.limits.Prefix.TheVariants.{Negation, Negative};

use crate::fault::{SyntaxFault, SyntaxKind};
use crate::lexing::first_tokens;
use crate::token::{Lexeme, Reserved, Sign, Token};
use std::alloc::Global;
use vc_value::Listed;

/// How many tokens a dependency may have.
pub const MOST_TOKENS: usize = 4000;

/// How deep parentheses may nest, and how many NOTs or minuses may stand in a row.
const DEEPEST: usize = 32;

/// What may stand in a row before that which it changes.
#[derive(Clone, Copy, Debug, PartialEq, Eq)]
pub enum Prefix {
    /// NOT.
    Negation,
    /// A minus.
    Negative,
}

/// Whether there are over 4,000 tokens.
pub fn is_too_long(tokens: &[Token]) -> bool
    ensures { result ≡ limits.is_too_long tokens.now }
{
    tokens.len() > MOST_TOKENS
}

fn is_open(lexeme: &Lexeme) -> bool
    ensures { result ≡ limits.is_open lexeme.now }
{
    matches!(lexeme, Lexeme::Sign(Sign::OpenParen))
}

fn is_close(lexeme: &Lexeme) -> bool
    ensures { result ≡ limits.is_close lexeme.now }
{
    matches!(lexeme, Lexeme::Sign(Sign::CloseParen))
}

fn is_prefix(prefix: Prefix, lexeme: &Lexeme) -> bool
    ensures { result ≡ limits.is_prefix prefix lexeme.now }
{
    match (prefix, lexeme) {
        (Prefix::Negation, Lexeme::Reserved(Reserved::Not)) => true,
        (Prefix::Negative, Lexeme::Sign(Sign::Minus)) => true,
        _ => false,
    }
}

// Whether `(` less `)` passes 32 up to some token.
fn nests_deep(tokens: &[Token]) -> bool
    ensures { result ≡ limits.nests_deep 0 0 tokens.now }
{
    let mut opened: usize = 0;
    let mut closed: usize = 0;
    let mut rest = tokens;
    while let [token, more @ ..] = rest {
        opened += usize::from(is_open(&token.lexeme));
        closed += usize::from(is_close(&token.lexeme));
        if opened > closed + DEEPEST {
            return true;
        }
        rest = more;
    }
    false
}

fn row_up_to(prefix: Prefix, before: usize, lexeme: &Lexeme) -> usize
    requires { before ≤ 32 }
    ensures { result ≡ limits.row_up_to prefix before lexeme.now }
{
    if is_prefix(prefix, lexeme) {
        before + 1
    } else if is_open(lexeme) {
        before
    } else {
        0
    }
}

// Whether over 32 such prefixes stand in a row, each `(` between them passed over.
fn has_long_row(prefix: Prefix, tokens: &[Token]) -> bool
    ensures { result ≡ limits.has_long_row prefix 0 tokens.now }
{
    let mut row: usize = 0;
    let mut rest = tokens;
    while let [token, more @ ..] = rest {
        row = row_up_to(prefix, row, &token.lexeme);
        if row > DEEPEST {
            return true;
        }
        rest = more;
    }
    false
}

fn has_some_long_row(tokens: &[Token]) -> bool
    ensures { result ≡ (limits.has_long_row Negation 0 tokens.now || limits.has_long_row Negative 0 tokens.now) }
{
    has_long_row(Prefix::Negation, tokens) || has_long_row(Prefix::Negative, tokens)
}

/// Whether parentheses are over 32 deep, or over 32 NOTs or minuses stand in a row, each `(` between them passed over.
pub fn is_too_deep(tokens: &[Token]) -> bool
    ensures { result ≡ limits.is_too_deep tokens.now }
{
    nests_deep(tokens) || has_some_long_row(tokens)
}

// The tokens, where they are neither too many nor too deep.
fn limited(tokens: Listed<Token>) -> Result<Listed<Token>, SyntaxFault>
    ensures { result ≡ limits.within_limits (Ok tokens) }
{
    if is_too_long(tokens.as_slice()) {
        return Err(SyntaxFault::Bad {
            kind: SyntaxKind::TooLong,
            at: 0,
        });
    }
    if is_too_deep(tokens.as_slice()) {
        return Err(SyntaxFault::Bad {
            kind: SyntaxKind::TooDeep,
            at: 0,
        });
    }
    Ok(tokens)
}

/// The tokens of the text; or its first bad token, or that there are too many tokens or that they nest too deep.
pub fn tokens_within_limits(alloc: Global, text: &[u8]) -> Result<Listed<Token>, SyntaxFault>
    requires { length text.now < 2 ^ 32 }
    ensures { Gives result (limits.within_limits (tokens_of text.now)) }
{
    let tokens = first_tokens(alloc, text)?;
    limited(tokens)
}
