//! From a text to its tokens, or to its first bad token.

ghost use Rattle.std.specs.Prelude.{◌≡◌, ◌==◌, ◌&&◌, not, ◌+◌, ◌<◌, ◌≤◌, ◌^◌, true, false, ℕ, List, Ok, length, IfOk};
ghost use Rattle.std.specs.Prelude.{OnOk, take, ◌++◌, ◌∷◌, []};
ghost use Rattle.std.specs.List.{list_all};
ghost use Rattle.std.specs.Char.{is_ascii_digit};
ghost use Rattle.vc_value.specs.Names.{is_name_byte};
ghost use Rattle.vc_syntax_tokens.specs.Lexemes as lexemes;
ghost use Rattle.vc_syntax_tokens.specs.Tokens as tokens;
ghost use Rattle.vc_syntax_tokens.specs.Written.{is_lexeme};
ghost use Rattle.vc_syntax_tokens.specs.declared.token.Token.{Token};
ghost use Rattle.vc_syntax_tokens.specs.declared.lexing.LexFault.TheVariants.{OutOfMemory};

use crate::fault::{SyntaxFault, SyntaxKind};
use crate::limits::MOST_TOKENS;
use crate::spelling::{dollar_of, reserved_of, sign_of_byte, sign_of_pair};
use crate::token::{Lexeme, Sign, Token};
use std::alloc::{AllocError, Global};
use vc_value::names::{begins_name, is_name_byte};
use vc_value::{Dec, Listed, Word};

/// The longest name and text, in characters.
const LONGEST: usize = 30;

/// A lexeme, and how many bytes of the text it takes.
#[derive(Debug, Drop)]
pub struct Lexed {
    pub lexeme: Lexeme,
    pub length: usize,
}

/// Where a byte stands in its line.
#[derive(Clone, Copy, Debug, PartialEq, Eq)]
pub enum Place {
    /// Only spaces stand before it.
    LineStart,
    /// A token or a part of one stands before it.
    Inside,
    Comment,
}

/// Why no lexeme stands at the front of a text.
#[derive(Clone, Copy, Debug, PartialEq, Eq)]
enum LexFault {
    Bad(SyntaxKind),
    OutOfMemory,
}

impl From<AllocError> for LexFault {
    ghost from_gives = { λ _ fault. fault ≡ OutOfMemory };

    fn from(_error: AllocError) -> LexFault {
        LexFault::OutOfMemory
    }
}

fn name_length(bytes: &[u8]) -> usize
    ensures length { result ≡ lexemes.name_length bytes.now }
    ensures within { result ≤ length bytes.now }
{
    bytes.iter().take_while(|byte| is_name_byte(**byte)).count()
}

fn word_at(alloc: Global, bytes: &[u8]) -> Result<Word, AllocError>
    ensures { IfOk result (λ word. word ≡ lexemes.word_at bytes.now) }
{
    Word::upper_from(alloc, &bytes[..name_length(bytes)])
}

/// The reserved word that the word in upper case is, or the name.
pub fn lexeme_of_word(word: Word) -> Lexeme
    ensures { result ≡ lexemes.lexeme_of_word word }
{
    match reserved_of(word.bytes()) {
        Some(reserved) => Lexeme::Reserved(reserved),
        None => Lexeme::Name(word),
    }
}

fn name_at(alloc: Global, bytes: &[u8]) -> Result<Lexed, LexFault>
    ensures { lexemes.Lexes result (lexemes.name_at bytes.now) }
{
    let length = name_length(bytes);
    if length > LONGEST {
        return Err(LexFault::Bad(SyntaxKind::NameTooLong));
    }
    let word = word_at(alloc, bytes)?;
    Ok(Lexed {
        lexeme: lexeme_of_word(word),
        length,
    })
}

fn digits_length(bytes: &[u8]) -> usize
    ensures length { result ≡ lexemes.digits_length bytes.now }
    ensures within { result ≤ length bytes.now }
{
    bytes
        .iter()
        .take_while(|byte| byte.is_ascii_digit())
        .count()
}

fn fraction_length(bytes: &[u8]) -> usize
    ensures length { result ≡ lexemes.fraction_length bytes.now }
    ensures within { result ≤ length bytes.now }
{
    match bytes {
        [b'.', digits @ ..] if digits_length(digits) > 0 => 1 + digits_length(digits),
        _ => 0,
    }
}

fn number_length(bytes: &[u8]) -> usize
    ensures length { result ≡ lexemes.number_length bytes.now }
    ensures within { result ≤ length bytes.now }
{
    let whole = digits_length(bytes);
    whole + fraction_length(&bytes[whole..])
}

fn number_at(bytes: &[u8]) -> Result<Lexed, LexFault>
    ensures { lexemes.Lexes result (lexemes.number_at bytes.now) }
{
    let length = number_length(bytes);
    match Dec::read(&bytes[..length]) {
        Ok(number) => Ok(Lexed {
            lexeme: Lexeme::Number(number),
            length,
        }),
        Err(_) => Err(LexFault::Bad(SyntaxKind::NumberTooWide)),
    }
}

// Whether a byte after a quote shows that the quote closed the text.
fn is_past_text(after_quote: bool, byte: u8) -> bool
    ensures { result ≡ (after_quote && not (byte == 39)) }
{
    after_quote && byte != b'\''
}

// Whether the byte is a quote that closes the text unless another follows.
fn may_close(after_quote: bool, byte: u8) -> bool
    ensures { result ≡ (not after_quote && (byte == 39)) }
{
    !after_quote && byte == b'\''
}

// Puts the byte to the text, unless it is the first of two quotes or the last.
fn put_byte(text: &mut Word, after_quote: bool, byte: u8) -> Result<(), AllocError>
    ensures { OnOk result (text.new ≡ lexemes.with_byte text.old after_quote byte) }
{
    if may_close(after_quote, byte) {
        return Ok(());
    }
    text.append(&[byte])
}

// The text before the quote that closes it, doubled quotes made single.
fn text_before_quote(alloc: Global, bytes: &[u8]) -> Result<Option<Word>, AllocError>
    ensures { IfOk result (λ text. text ≡ lexemes.text_before_quote false bytes.now) }
{
    let mut text = Word::new(alloc);
    let mut after_quote = false;
    let mut rest = bytes;
    while let [byte, more @ ..] = rest {
        if is_past_text(after_quote, *byte) {
            return Ok(Some(text));
        }
        put_byte(&mut text, after_quote, *byte)?;
        after_quote = may_close(after_quote, *byte);
        rest = more;
    }
    Ok(if after_quote { Some(text) } else { None })
}

fn closing_length(bytes: &[u8]) -> usize
    ensures length { result ≡ lexemes.closing_length false bytes.now }
    ensures within { result ≤ length bytes.now }
{
    let mut count = 0;
    let mut after_quote = false;
    let mut rest = bytes;
    while let [byte, more @ ..] = rest {
        if is_past_text(after_quote, *byte) {
            return count;
        }
        after_quote = may_close(after_quote, *byte);
        rest = more;
        count += 1;
    }
    count
}

fn begins_character(byte: u8) -> bool
    ensures { result ≡ lexemes.begins_character byte }
{
    !(128 <= byte && byte < 192)
}

fn character_count(text: &[u8]) -> usize
    ensures { result ≡ lexemes.character_count text.now }
{
    text.iter().filter(|byte| begins_character(**byte)).count()
}

fn is_text(text: &[u8]) -> bool
    ensures { result ≡ lexemes.is_text text.now }
{
    let count = character_count(text);
    1 <= count && count <= LONGEST
}

fn text_at(alloc: Global, bytes: &[u8]) -> Result<Lexed, LexFault>
    ensures { lexemes.Lexes result (lexemes.text_at bytes.now) }
{
    match text_before_quote(alloc, bytes)? {
        Some(text) if is_text(text.bytes()) => Ok(Lexed {
            lexeme: Lexeme::Text(text),
            length: 1 + closing_length(bytes),
        }),
        Some(_) => Err(LexFault::Bad(SyntaxKind::TextTooLong)),
        None => Err(LexFault::Bad(SyntaxKind::OpenText)),
    }
}

fn dollar_at(alloc: Global, bytes: &[u8]) -> Result<Lexed, LexFault>
    ensures { lexemes.Lexes result (lexemes.dollar_at bytes.now) }
{
    let word = word_at(alloc, bytes)?;
    match dollar_of(word.bytes()) {
        Some(dollar) => Ok(Lexed {
            lexeme: Lexeme::Dollar(dollar),
            length: 1 + name_length(bytes),
        }),
        None => Err(LexFault::Bad(SyntaxKind::UnknownWord)),
    }
}

fn begins_with_name(bytes: &[u8]) -> bool
    ensures { result ≡ lexemes.begins_with_name bytes.now }
{
    match bytes {
        [first, ..] => begins_name(*first),
        [] => false,
    }
}

fn variable_at(alloc: Global, bytes: &[u8]) -> Result<Lexed, LexFault>
    ensures { lexemes.Lexes result (lexemes.variable_at bytes.now) }
{
    if !begins_with_name(bytes) {
        return Err(LexFault::Bad(SyntaxKind::UnknownWord));
    }
    let length = name_length(bytes);
    if length > LONGEST {
        return Err(LexFault::Bad(SyntaxKind::NameTooLong));
    }
    let word = word_at(alloc, bytes)?;
    Ok(Lexed {
        lexeme: Lexeme::Variable(word),
        length: 1 + length,
    })
}

fn short_sign(byte: u8, following: &[u8]) -> Option<Sign>
    ensures { result ≡ lexemes.short_sign byte following.now }
{
    match byte {
        b'.' if begins_with_name(following) => Some(Sign::Dot),
        b'.' => Some(Sign::Period),
        _ => sign_of_byte(byte),
    }
}

fn short_sign_at(byte: u8, following: &[u8]) -> Result<Lexed, LexFault>
    ensures { lexemes.Lexes result (lexemes.short_sign_lexed (lexemes.short_sign byte following.now)) }
{
    match short_sign(byte, following) {
        Some(sign) => Ok(Lexed {
            lexeme: Lexeme::Sign(sign),
            length: 1,
        }),
        None => Err(LexFault::Bad(SyntaxKind::BadByte)),
    }
}

fn long_sign(byte: u8, following: &[u8]) -> Option<Sign>
    ensures { result ≡ lexemes.long_sign byte following.now }
{
    match following {
        [next, ..] => sign_of_pair(byte, *next),
        [] => None,
    }
}

fn sign_at(byte: u8, following: &[u8]) -> Result<Lexed, LexFault>
    ensures { lexemes.Lexes result (lexemes.sign_at byte following.now) }
{
    match long_sign(byte, following) {
        Some(sign) => Ok(Lexed {
            lexeme: Lexeme::Sign(sign),
            length: 2,
        }),
        None => short_sign_at(byte, following),
    }
}

// What a quote, a `$` or a `?` begins, or a sign.
fn marked_at(alloc: Global, byte: u8, following: &[u8]) -> Result<Lexed, LexFault>
    ensures { lexemes.Lexes result (lexemes.marked_at byte following.now) }
{
    match byte {
        b'\'' => text_at(alloc, following),
        b'$' => dollar_at(alloc, following),
        b'?' => variable_at(alloc, following),
        _ => sign_at(byte, following),
    }
}

// The lexeme at the front of bytes that aren't empty.
fn lexeme_at(alloc: Global, bytes: &[u8]) -> Result<Lexed, LexFault>
    ensures { lexemes.Lexes result (lexemes.lexeme_at bytes.now) }
{
    match bytes {
        [first, ..] if begins_name(*first) => name_at(alloc, bytes),
        [first, ..] if first.is_ascii_digit() => number_at(bytes),
        [first, following @ ..] => marked_at(alloc, *first, following),
        [] => Err(LexFault::Bad(SyntaxKind::BadByte)),
    }
}

// The token at the front of bytes that aren't empty and stand at start in the text.
fn token_at(alloc: Global, start: u32, bytes: &[u8]) -> Result<Token, SyntaxFault>
    requires some { 0 < length bytes.now }
    requires fits { start + length bytes.now < 2 ^ 32 }
    ensures token { tokens.Gives result (tokens.token_at start bytes.now) }
    ensures within { IfOk result (λ token. (start < token.end) × (token.end ≤ start + length bytes.now)) }
{
    match lexeme_at(alloc, bytes) {
        Ok(Lexed { lexeme, length }) => Ok(Token {
            lexeme,
            start,
            end: start + length as u32,
        }),
        Err(LexFault::Bad(kind)) => Err(SyntaxFault::Bad { kind, at: start }),
        Err(LexFault::OutOfMemory) => Err(SyntaxFault::OutOfMemory),
    }
}

fn is_gap(place: Place, byte: u8) -> bool
    ensures { result ≡ tokens.is_gap place byte }
{
    match place {
        Place::LineStart => byte == b' ' || byte == b'\n' || byte == b'*',
        Place::Inside => byte == b' ' || byte == b'\n',
        Place::Comment => true,
    }
}

fn inside_line(place: Place, byte: u8) -> Place
    ensures { result ≡ tokens.inside_line place byte }
{
    match place {
        Place::LineStart if byte == b'*' => Place::Comment,
        _ => place,
    }
}

// Where the byte after a byte of no token stands.
fn place_after(place: Place, byte: u8) -> Place
    ensures { result ≡ tokens.place_after place byte }
{
    if byte == b'\n' {
        Place::LineStart
    } else {
        inside_line(place, byte)
    }
}

// Puts the token to the first ones, if they aren't more than a dependency may have.
fn keep(tokens: &mut Listed<Token>, token: Token) -> Result<(), AllocError>
    requires { length tokens.old ≤ 4001 }
    ensures { OnOk result (tokens.new ≡ take 4001 (tokens.old ++ token ∷ [])) }
{
    if tokens.len() <= MOST_TOKENS {
        tokens.push(token)?;
    }
    Ok(())
}

/// The first tokens of the text, one more than a dependency may have, if it has so many; or the first bad token of
/// the whole text. So a text of millions of tokens takes no memory for them.
pub fn first_tokens(alloc: Global, text: &[u8]) -> Result<Listed<Token>, SyntaxFault>
    requires { length text.now < 2 ^ 32 }
    ensures { tokens.Gives result (tokens.first_ones (tokens.tokens_of text.now)) }
{
    let mut tokens = Listed::new(alloc);
    let mut place = Place::LineStart;
    let mut start: u32 = 0;
    let mut rest = text;
    while let [byte, more @ ..] = rest {
        if is_gap(place, *byte) {
            place = place_after(place, *byte);
            start += 1;
            rest = more;
        } else {
            let token = token_at(alloc, start, rest)?;
            rest = &rest[(token.end - start) as usize..];
            start = token.end;
            place = Place::Inside;
            keep(&mut tokens, token)?;
        }
    }
    Ok(tokens)
}

/// Each token of a text is a name in upper case of at most 30 bytes, a text of 1 to 30 characters, a
/// stored number without a minus, a reserved word, a `$` word or a sign.
pub fn tokens_are_lexemes()
    ensures { (text : List ℕ) (found : List Token) → tokens.tokens_of text ≡ Ok found
        → list_all (λ token. is_lexeme token.lexeme) found ≡ true }
{}
