//! The lines of a model text by their forms, taken apart by their words alone.
//!
//! Names, materials and units stand in upper case; texts in quotes, files and the texts of
//! dependencies as they are written.

use vc_syntax_tokens::Kind;
use vc_value::{Dec, Word};

/// The word that a line begins with.
#[derive(Clone, Copy, PartialEq, Eq)]
pub enum Keyword {
    Model,
    Char,
    Num,
    Value,
    Uses,
    Class,
    Has,
    Table,
    Column,
    Net,
    Object,
    Line,
    Operation,
    Precondition,
    Selection,
    Procedure,
    Constraint,
    Root,
    Action,
}

/// `MODEL name VERSION n`; None is a version that isn't 1 to 999,999.
#[derive(Drop)]
pub struct HeadLine {
    pub name: Word,
    pub version: Option<u32>,
}

/// `CHAR name length`, with its flags; None is a length that isn't 1 to 30.
#[derive(Drop)]
pub struct CharLine {
    pub name: Word,
    pub length: Option<u8>,
    pub restrictable: bool,
    pub required: bool,
    pub multiple: bool,
}

/// `NUM name decimals`, with its flags and unit; None are decimals that aren't 0 to 6.
#[derive(Drop)]
pub struct NumLine {
    pub name: Word,
    pub decimals: Option<u8>,
    pub restrictable: bool,
    pub required: bool,
    pub unit: Option<Word>,
}

/// `VALUE n .. n`, or `VALUE n` with both ends the same; None is an end that is no number of at most
/// nine digits before the point and six after it.
#[derive(Clone, Copy, PartialEq, Eq)]
pub struct IntervalLine {
    pub low: Option<Dec>,
    pub high: Option<Dec>,
}

/// `TABLE name FILE file`.
#[derive(Drop)]
pub struct TableLine {
    pub name: Word,
    pub file: Word,
}

/// `COLUMN characteristic`, or with `KEY`.
#[derive(Drop)]
pub struct ColumnLine {
    pub characteristic: Word,
    pub key: bool,
}

/// `OBJECT material CLASS class`.
#[derive(Drop)]
pub struct ObjectLine {
    pub material: Word,
    pub class: Word,
}

/// `LINE item material unit : term`; None is an item that isn't four digits.
#[derive(Drop)]
pub struct BillLine {
    pub item: Option<u16>,
    pub material: Word,
    pub unit: Word,
    pub quantity: Word,
}

/// `OPERATION number centre unit : term`; None is a number that isn't four digits.
#[derive(Drop)]
pub struct OperationLine {
    pub number: Option<u16>,
    pub centre: Word,
    pub unit: Word,
    pub time: Word,
}

/// `PRECONDITION name` and its like, which open a block. No block holds a term.
#[derive(Drop)]
pub struct BlockLine {
    pub kind: Kind,
    pub name: Word,
}

/// A raw line of the text.
#[derive(Drop)]
pub enum Line {
    /// Outside blocks, empty or a comment: it doesn't count.
    Skipped,
    /// In a block: a line of its text, without the spaces at its ends.
    Inner(Word),
    /// In a block: a line of over 1,000 bytes.
    LongInner,
    /// `END`, which closes a block.
    End,
    /// A line that counts and has over 1,000 bytes.
    TooLong(Option<Keyword>),
    /// A line of no form.
    NoForm(Option<Keyword>),
    Head(HeadLine),
    Char(CharLine),
    Num(NumLine),
    /// `VALUE 'text'`, with the text.
    Text(Word),
    Interval(IntervalLine),
    Uses(Word),
    Class(Word),
    Has(Word),
    Table(TableLine),
    Column(ColumnLine),
    Net(Word),
    Object(ObjectLine),
    Bill(BillLine),
    Operation(OperationLine),
    /// The line that opens a block.
    Block(BlockLine),
    Root(Word),
    /// `ACTION name`.
    Action,
}
