//! What every reader of tokens shares: how reading ends, and the tests of single tokens.

ghost use Rattle.std.specs.Prelude.{◌≡◌};
ghost use Rattle.std.specs.Option.{option_copied};
ghost use Rattle.vc_syntax_terms.specs.Leaves.{name_of, any_name_of, any_named, variable_of, text_of, number_of};
ghost use Rattle.vc_syntax_terms.specs.Leaves.{after_self, after_sign, after_word, named};
ghost use Rattle.vc_syntax_terms.specs.Reading.{Gives};

use std::alloc::{AllocError, AllocFailed, Global};
use vc_syntax_tokens::spelling::reserved_spelling;
use vc_syntax_tokens::token::{Dollar, Lexeme, Reserved, Sign, Token};
use vc_syntax_tree::{NameLeaf, NumberLeaf, ShortWord, TextLeaf};

/// Why tokens were not read.
#[derive(Clone, Copy, Debug, PartialEq, Eq)]
pub enum ReadFault {
    /// They don't begin as the grammar wants.
    Ungrammatical,
    OutOfMemory,
}

impl From<AllocError> for ReadFault {
    ghost use Rattle.std.specs.Prelude.{◌≡◌};
    ghost use Rattle.vc_syntax_terms.specs.declared.reading.ReadFault.TheVariants as faults;

    ghost from_gives = { λ _ fault. fault ≡ faults.OutOfMemory };

    fn from(_error: AllocError) -> ReadFault {
        ReadFault::OutOfMemory
    }
}

impl<T: Drop> From<AllocFailed<T>> for ReadFault {
    ghost use Rattle.std.specs.Prelude.{◌≡◌};
    ghost use Rattle.vc_syntax_terms.specs.declared.reading.ReadFault.TheVariants as faults;

    ghost from_gives = { λ _ fault. fault ≡ faults.OutOfMemory };

    fn from(_error: AllocFailed<T>) -> ReadFault {
        ReadFault::OutOfMemory
    }
}

/// The name that the token is.
pub fn name_leaf(alloc: Global, token: &Token) -> Result<NameLeaf, ReadFault>
    ensures { Gives (λ leaf. leaf) result (name_of token.now) }
{
    match &token.lexeme {
        Lexeme::Name(name) => {
            let name = ShortWord::from_bytes(alloc, name.bytes())?;
            Ok(NameLeaf {
                name,
                start: token.start,
                end: token.end,
            })
        }
        _ => Err(ReadFault::Ungrammatical),
    }
}

/// The name that the token is, where it may be a reserved word.
pub fn any_name_leaf(alloc: Global, token: &Token) -> Result<NameLeaf, ReadFault>
    ensures { Gives (λ leaf. leaf) result (any_name_of token.now) }
{
    match &token.lexeme {
        Lexeme::Reserved(word) => {
            let name = ShortWord::from_bytes(alloc, reserved_spelling(*word).as_bytes())?;
            Ok(NameLeaf {
                name,
                start: token.start,
                end: token.end,
            })
        }
        _ => name_leaf(alloc, token),
    }
}

/// The name in front, where it may be a reserved word, and what follows it.
pub fn any_named(alloc: Global, tokens: &[Token]) -> Result<(NameLeaf, &[Token]), ReadFault>
    ensures { Gives (λ x. (x.0, x.1.now)) result (any_named tokens.now) }
{
    match tokens {
        [token, rest @ ..] => Ok((any_name_leaf(alloc, token)?, rest)),
        [] => Err(ReadFault::Ungrammatical),
    }
}

/// The variable that the token is.
pub fn variable_leaf(alloc: Global, token: &Token) -> Result<NameLeaf, ReadFault>
    ensures { Gives (λ leaf. leaf) result (variable_of token.now) }
{
    match &token.lexeme {
        Lexeme::Variable(name) => {
            let name = ShortWord::from_bytes(alloc, name.bytes())?;
            Ok(NameLeaf {
                name,
                start: token.start,
                end: token.end,
            })
        }
        _ => Err(ReadFault::Ungrammatical),
    }
}

/// The text that the token is.
pub fn text_leaf(alloc: Global, token: &Token) -> Result<TextLeaf, ReadFault>
    ensures { Gives (λ leaf. leaf) result (text_of token.now) }
{
    match &token.lexeme {
        Lexeme::Text(text) => {
            let text = ShortWord::from_bytes(alloc, text.bytes())?;
            Ok(TextLeaf {
                text,
                start: token.start,
                end: token.end,
            })
        }
        _ => Err(ReadFault::Ungrammatical),
    }
}

/// The number that the token is.
pub fn number_leaf(token: &Token) -> Result<NumberLeaf, ReadFault>
    ensures { Gives (λ leaf. leaf) result (number_of token.now) }
{
    match &token.lexeme {
        Lexeme::Number(number) => Ok(NumberLeaf {
            number: *number,
            start: token.start,
            end: token.end,
        }),
        _ => Err(ReadFault::Ungrammatical),
    }
}

/// What follows the sign, where the tokens begin with it.
pub fn after_sign(sign: Sign, tokens: &[Token]) -> Result<&[Token], ReadFault>
    ensures { Gives (λ rest. rest.now) result (after_sign sign tokens.now) }
{
    match tokens {
        [
            Token {
                lexeme: Lexeme::Sign(found),
                ..
            },
            rest @ ..,
        ] if *found == sign => Ok(rest),
        _ => Err(ReadFault::Ungrammatical),
    }
}

/// What follows the word, where the tokens begin with it.
pub fn after_word(word: Reserved, tokens: &[Token]) -> Result<&[Token], ReadFault>
    ensures { Gives (λ rest. rest.now) result (after_word word tokens.now) }
{
    match tokens {
        [
            Token {
                lexeme: Lexeme::Reserved(found),
                ..
            },
            rest @ ..,
        ] if *found == word => Ok(rest),
        _ => Err(ReadFault::Ungrammatical),
    }
}

/// What follows the sign, if the tokens begin with it.
pub fn sign_ahead(sign: Sign, tokens: &[Token]) -> Option<&[Token]>
    ensures { option_copied result ≡ after_sign sign tokens.now }
{
    match tokens {
        [
            Token {
                lexeme: Lexeme::Sign(found),
                ..
            },
            rest @ ..,
        ] if *found == sign => Some(rest),
        _ => None,
    }
}

/// What follows the word, if the tokens begin with it.
pub fn word_ahead(word: Reserved, tokens: &[Token]) -> Option<&[Token]>
    ensures { option_copied result ≡ after_word word tokens.now }
{
    match tokens {
        [
            Token {
                lexeme: Lexeme::Reserved(found),
                ..
            },
            rest @ ..,
        ] if *found == word => Some(rest),
        _ => None,
    }
}

/// What follows `$SELF`, where the tokens begin with it.
pub fn after_self(tokens: &[Token]) -> Result<&[Token], ReadFault>
    ensures { Gives (λ rest. rest.now) result (after_self tokens.now) }
{
    match tokens {
        [
            Token {
                lexeme: Lexeme::Dollar(Dollar::Itself),
                ..
            },
            rest @ ..,
        ] => Ok(rest),
        _ => Err(ReadFault::Ungrammatical),
    }
}

/// The name in front, and what follows it.
pub fn named(alloc: Global, tokens: &[Token]) -> Result<(NameLeaf, &[Token]), ReadFault>
    ensures { Gives (λ x. (x.0, x.1.now)) result (named tokens.now) }
{
    match tokens {
        [token, rest @ ..] => Ok((name_leaf(alloc, token)?, rest)),
        [] => Err(ReadFault::Ungrammatical),
    }
}
