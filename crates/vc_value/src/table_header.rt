//! What the file of a variant table must have: its columns, and the values that each may hold.

use crate::grains::GrainList;
use crate::listed::Listed;
use crate::word::Word;

/// The values of a characteristic: texts by their numbers in the model, or numbers of at most so
/// many decimals.
#[derive(Debug, Drop)]
pub enum Domain {
    Texts(Listed<u32>),
    Nums { decimals: u8, grains: GrainList },
}

/// A text and its number in the model.
#[derive(Debug, Drop)]
pub struct Entry {
    pub text: Word,
    pub number: u32,
}

/// A column: the characteristic's name and values, with their texts where it has texts.
#[derive(Debug, Drop)]
pub struct Column {
    pub name: Word,
    pub key: bool,
    pub texts: Listed<Entry>,
    pub domain: Domain,
}

/// A table's name, and its columns in the order of the file.
#[derive(Debug, Drop)]
pub struct TableHeader {
    pub name: Word,
    pub columns: Listed<Column>,
}
