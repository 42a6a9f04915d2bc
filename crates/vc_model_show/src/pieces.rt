//! Pieces of lines: words, flags, numbers and canonical texts.

use std::alloc::Global;
use std::fmt;
use std::str::from_utf8;
use vc_syntax_print::{print_dependency, print_term};
use vc_syntax_tree::{Dependency, Term};
use vc_value::{Dec, Word};

/// A word as it is.
#[derive(Drop)]
pub struct Bare<'a> {
    pub word: &'a Word,
}

impl fmt::Display for Bare<'_> {
    fn fmt<W: fmt::Write>(&self, f: &mut fmt::Formatter<W>) -> fmt::Result {
        put_word(f, self.word)
    }
}

/// A text in quotes, each quote in it doubled.
#[derive(Drop)]
pub struct Quoted<'a> {
    pub text: &'a Word,
}

impl fmt::Display for Quoted<'_> {
    fn fmt<W: fmt::Write>(&self, f: &mut fmt::Formatter<W>) -> fmt::Result {
        match from_utf8(self.text.bytes()) {
            Ok(text) => put_quoted(f, text),
            Err(_) => Err(fmt::Error),
        }
    }
}

/// A word that stands where the flag does.
#[derive(Drop)]
pub struct Flag {
    pub stands: bool,
    pub word: &'static str,
}

impl fmt::Display for Flag {
    fn fmt<W: fmt::Write>(&self, f: &mut fmt::Formatter<W>) -> fmt::Result {
        if self.stands {
            f.write_str(self.word)
        } else {
            Ok(())
        }
    }
}

/// Numbers behind their title, unless there is none.
#[derive(Drop)]
pub struct Numbers<'a> {
    pub title: &'static str,
    pub numbers: &'a [u32],
}

impl fmt::Display for Numbers<'_> {
    fn fmt<W: fmt::Write>(&self, f: &mut fmt::Formatter<W>) -> fmt::Result {
        if self.numbers.is_empty() {
            return Ok(());
        }
        f.write_str(self.title)?;
        for number in self.numbers {
            write!(f, " {number}")?;
        }
        Ok(())
    }
}

/// A number as it prints.
#[derive(Drop)]
pub struct Printed {
    pub alloc: Global,
    pub number: Dec,
}

impl fmt::Display for Printed {
    fn fmt<W: fmt::Write>(&self, f: &mut fmt::Formatter<W>) -> fmt::Result {
        match self.number.print(self.alloc) {
            Ok(word) => put_word(f, &word),
            Err(_) => Err(fmt::Error),
        }
    }
}

/// The canonical text of a dependency.
#[derive(Drop)]
pub struct Canonical<'a> {
    pub alloc: Global,
    pub dependency: &'a Dependency,
}

impl fmt::Display for Canonical<'_> {
    fn fmt<W: fmt::Write>(&self, f: &mut fmt::Formatter<W>) -> fmt::Result {
        match print_dependency(self.alloc, self.dependency) {
            Ok(word) => put_word(f, &word),
            Err(_) => Err(fmt::Error),
        }
    }
}

/// The canonical text of a term.
#[derive(Drop)]
pub struct CanonicalTerm<'a> {
    pub alloc: Global,
    pub term: &'a Term,
}

impl fmt::Display for CanonicalTerm<'_> {
    fn fmt<W: fmt::Write>(&self, f: &mut fmt::Formatter<W>) -> fmt::Result {
        match print_term(self.alloc, self.term) {
            Ok(word) => put_word(f, &word),
            Err(_) => Err(fmt::Error),
        }
    }
}

fn put_word<W: fmt::Write>(f: &mut fmt::Formatter<W>, word: &Word) -> fmt::Result {
    match from_utf8(word.bytes()) {
        Ok(text) => f.write_str(text),
        Err(_) => Err(fmt::Error),
    }
}

fn put_quoted<W: fmt::Write>(f: &mut fmt::Formatter<W>, text: &str) -> fmt::Result {
    f.write_str("'")?;
    for letter in text.chars() {
        if letter == '\'' {
            f.write_str("''")?;
        } else {
            f.write_char(letter)?;
        }
    }
    f.write_str("'")
}
