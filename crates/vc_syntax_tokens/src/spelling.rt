//! How the words and signs of the language are spelled.

ghost use Rattle.std.specs.Prelude.{◌≡◌};
ghost use Rattle.std.specs.Str.{bytes_eq};
ghost use Rattle.vc_syntax_tokens.specs.Spellings as spelled;

use crate::token::{Dollar, Reserved, Sign};

/// All reserved words.
pub const RESERVED_WORDS: [Reserved; 32] = [
    Reserved::And,
    Reserved::Or,
    Reserved::Not,
    Reserved::In,
    Reserved::If,
    Reserved::Specified,
    Reserved::Table,
    Reserved::False,
    Reserved::IsA,
    Reserved::IsObject,
    Reserved::Material,
    Reserved::Where,
    Reserved::PartOf,
    Reserved::Eq,
    Reserved::Ne,
    Reserved::Lt,
    Reserved::Le,
    Reserved::Gt,
    Reserved::Ge,
    Reserved::Objects,
    Reserved::Condition,
    Reserved::Restriction,
    Reserved::Restrictions,
    Reserved::Inferences,
    Reserved::Nr,
    Reserved::End,
    Reserved::Abs,
    Reserved::Sign,
    Reserved::Trunc,
    Reserved::Floor,
    Reserved::Ceil,
    Reserved::Frac,
];

/// All words that begin with `$`.
pub const DOLLAR_WORDS: [Dollar; 7] = [
    Dollar::Itself,
    Dollar::Parent,
    Dollar::Root,
    Dollar::SetDefault,
    Dollar::DelDefault,
    Dollar::SumParts,
    Dollar::CountParts,
];

/// How a reserved word is spelled, in upper case.
pub fn reserved_spelling(word: Reserved) -> &'static str
    ensures { result.now ≡ spelled.reserved_spelling word }
{
    match word {
        Reserved::And => "AND",
        Reserved::Or => "OR",
        Reserved::Not => "NOT",
        Reserved::In => "IN",
        Reserved::If => "IF",
        Reserved::Specified => "SPECIFIED",
        Reserved::Table => "TABLE",
        Reserved::False => "FALSE",
        Reserved::IsA => "IS_A",
        Reserved::IsObject => "IS_OBJECT",
        Reserved::Material => "MATERIAL",
        Reserved::Where => "WHERE",
        Reserved::PartOf => "PART_OF",
        Reserved::Eq => "EQ",
        Reserved::Ne => "NE",
        Reserved::Lt => "LT",
        Reserved::Le => "LE",
        Reserved::Gt => "GT",
        Reserved::Ge => "GE",
        Reserved::Objects => "OBJECTS",
        Reserved::Condition => "CONDITION",
        Reserved::Restriction => "RESTRICTION",
        Reserved::Restrictions => "RESTRICTIONS",
        Reserved::Inferences => "INFERENCES",
        Reserved::Nr => "NR",
        Reserved::End => "END",
        Reserved::Abs => "ABS",
        Reserved::Sign => "SIGN",
        Reserved::Trunc => "TRUNC",
        Reserved::Floor => "FLOOR",
        Reserved::Ceil => "CEIL",
        Reserved::Frac => "FRAC",
    }
}

/// How a word that begins with `$` is spelled after it, in upper case.
pub fn dollar_spelling(word: Dollar) -> &'static str
    ensures { result.now ≡ spelled.dollar_spelling word }
{
    match word {
        Dollar::Itself => "SELF",
        Dollar::Parent => "PARENT",
        Dollar::Root => "ROOT",
        Dollar::SetDefault => "SET_DEFAULT",
        Dollar::DelDefault => "DEL_DEFAULT",
        Dollar::SumParts => "SUM_PARTS",
        Dollar::CountParts => "COUNT_PARTS",
    }
}

/// How a sign is printed.
pub fn sign_spelling(sign: Sign) -> &'static str
    ensures { result.now ≡ spelled.sign_spelling sign }
{
    match sign {
        Sign::OpenParen => "(",
        Sign::CloseParen => ")",
        Sign::Comma => ",",
        Sign::Semicolon => ";",
        Sign::Colon => ":",
        Sign::Dot | Sign::Period => ".",
        Sign::Equal => "=",
        Sign::Unequal => "<>",
        Sign::Less => "<",
        Sign::LessEqual => "<=",
        Sign::Greater => ">",
        Sign::GreaterEqual => ">=",
        Sign::Plus => "+",
        Sign::Minus => "-",
        Sign::Star => "*",
        Sign::Slash => "/",
    }
}

fn is_reserved(reserved: Reserved, word: &[u8]) -> bool
    ensures { result ≡ bytes_eq (spelled.reserved_spelling reserved) word.now }
{
    reserved_spelling(reserved).as_bytes() == word
}

/// The reserved word of this spelling, if it is one.
pub fn reserved_of(word: &[u8]) -> Option<Reserved>
    ensures { result ≡ spelled.reserved_of word.now }
{
    RESERVED_WORDS
        .iter()
        .copied()
        .find(|reserved| is_reserved(*reserved, word))
}

fn is_dollar(dollar: Dollar, word: &[u8]) -> bool
    ensures { result ≡ bytes_eq (spelled.dollar_spelling dollar) word.now }
{
    dollar_spelling(dollar).as_bytes() == word
}

/// The word of this spelling after `$`, if it is one.
pub fn dollar_of(word: &[u8]) -> Option<Dollar>
    ensures { result ≡ spelled.dollar_of word.now }
{
    DOLLAR_WORDS
        .iter()
        .copied()
        .find(|dollar| is_dollar(*dollar, word))
}

/// The sign that two bytes are together, if they are one.
pub fn sign_of_pair(first: u8, second: u8) -> Option<Sign>
    ensures { result ≡ spelled.sign_of_pair first second }
{
    match (first, second) {
        (b'<', b'>') => Some(Sign::Unequal),
        (b'<', b'=') | (b'=', b'<') => Some(Sign::LessEqual),
        (b'>', b'=') | (b'=', b'>') => Some(Sign::GreaterEqual),
        _ => None,
    }
}

/// The sign that a byte is alone, but for `.`.
pub fn sign_of_byte(byte: u8) -> Option<Sign>
    ensures { result ≡ spelled.sign_of_byte byte }
{
    match byte {
        b'(' => Some(Sign::OpenParen),
        b')' => Some(Sign::CloseParen),
        b',' => Some(Sign::Comma),
        b';' => Some(Sign::Semicolon),
        b':' => Some(Sign::Colon),
        b'=' => Some(Sign::Equal),
        b'<' => Some(Sign::Less),
        b'>' => Some(Sign::Greater),
        b'+' => Some(Sign::Plus),
        b'-' => Some(Sign::Minus),
        b'*' => Some(Sign::Star),
        b'/' => Some(Sign::Slash),
        _ => None,
    }
}
