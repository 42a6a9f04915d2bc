//! The tokens of a dependency's text.

use vc_value::{Dec, Word};

/// A token: what it is, and its first byte and the byte after its last in the text.
#[derive(Debug, Drop)]
pub struct Token {
    pub lexeme: Lexeme,
    pub start: u32,
    pub end: u32,
}

/// What a token is.
#[derive(Debug, Drop)]
pub enum Lexeme {
    /// A name that is no reserved word, in upper case, of 1 to 30 bytes.
    Name(Word),
    Reserved(Reserved),
    /// `?X`: its name without `?`, in upper case.
    Variable(Word),
    Dollar(Dollar),
    /// A text without its quotes, doubled quotes made single.
    Text(Word),
    Number(Dec),
    Sign(Sign),
}

/// A word that is never a characteristic's name.
#[derive(Clone, Copy, Debug, PartialEq, Eq)]
pub enum Reserved {
    And,
    Or,
    Not,
    In,
    If,
    Specified,
    Table,
    False,
    IsA,
    IsObject,
    Material,
    Where,
    PartOf,
    Eq,
    Ne,
    Lt,
    Le,
    Gt,
    Ge,
    Objects,
    Condition,
    Restriction,
    Restrictions,
    Inferences,
    Nr,
    End,
    Abs,
    Sign,
    Trunc,
    Floor,
    Ceil,
    Frac,
}

/// A word that begins with `$`.
#[derive(Clone, Copy, Debug, PartialEq, Eq)]
pub enum Dollar {
    /// `$SELF`.
    Itself,
    Parent,
    Root,
    SetDefault,
    DelDefault,
    SumParts,
    CountParts,
}

/// A sign of one or two bytes, whatever its spelling.
#[derive(Clone, Copy, Debug, PartialEq, Eq)]
pub enum Sign {
    OpenParen,
    CloseParen,
    Comma,
    Semicolon,
    Colon,
    /// A `.` that a letter or `_` follows at once.
    Dot,
    /// Any other `.` that is in no number.
    Period,
    Equal,
    Unequal,
    Less,
    LessEqual,
    Greater,
    GreaterEqual,
    Plus,
    Minus,
    Star,
    Slash,
}
