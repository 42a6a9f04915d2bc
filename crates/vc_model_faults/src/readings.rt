//! What the blocks and terms of a text are read as, each once.

ghost use Rattle.std.specs.Prelude.{◌≡◌, ◌↔◌, ◌^◌, ◌<◌, length, option_map, IfOk, IsTrue, true};
ghost use Rattle.std.specs.Str.Lines.{lines};
ghost use Rattle.vc_model_lines.specs.Classified.{lines_below, lines_from};
ghost use Rattle.vc_model_scope.specs.LookAhead as ahead;
ghost use Rattle.vc_model_faults.specs.Readings as readings;
ghost use Rattle.vc_syntax_tree.specs.Trees.{term_of};

use std::alloc::{AllocError, Global};
use vc_model_lines::{BlockLine, Line};
use vc_model_scope::look_ahead::block_text;
use vc_syntax::{Kind, SyntaxFault, read_dependency, read_term};
use vc_syntax_tree::{Dependency, Term};
use vc_value::Word;

/// What the text of a block, or a term, is read as.
#[derive(Drop)]
pub enum Reading {
    /// A block's dependency.
    Dependency(Dependency),
    /// The term of a line of a bill or of an operation.
    Term(Box<Term>),
    /// It isn't in the dependency language.
    Unread,
}

fn read_short(alloc: Global, kind: Kind, text: &[u8]) -> Result<Reading, AllocError>
    requires { length text.now < 2 ^ 32 }
    ensures { IfOk result (λ reading. readings.seen_reading reading ≡ readings.block_reading kind text.now) }
{
    match read_dependency(alloc, text, kind) {
        Ok(dependency) => Ok(Reading::Dependency(dependency)),
        Err(SyntaxFault::Bad { kind: _, at: _ }) => Ok(Reading::Unread),
        Err(SyntaxFault::OutOfMemory) => Err(AllocError),
    }
}

fn read_short_term(alloc: Global, text: &[u8]) -> Result<Reading, AllocError>
    requires { length text.now < 2 ^ 32 }
    ensures { IfOk result (λ reading. readings.seen_reading reading ≡ readings.term_reading text.now) }
{
    match read_term(alloc, text) {
        Ok(term) => Ok(Reading::Term(term)),
        Err(SyntaxFault::Bad { kind: _, at: _ }) => Ok(Reading::Unread),
        Err(SyntaxFault::OutOfMemory) => Err(AllocError),
    }
}

// A text of 4 GiB takes more memory than there is.
fn is_short(text: &[u8]) -> bool
    ensures { IsTrue result ↔ (length text.now < 2 ^ 32) }
{
    text.len() <= u32::MAX as usize
}

fn read_block(alloc: Global, line: &BlockLine, after: &[u8]) -> Result<Reading, AllocError>
    ensures { IfOk result (λ reading. readings.seen_reading reading
        ≡ readings.block_reading line.now.kind (ahead.block_text (lines_from true (lines after.now)))) }
{
    let text = block_text(alloc, after)?;
    if !is_short(text.bytes()) {
        return Err(AllocError);
    }
    let reading = read_short(alloc, line.kind, text.bytes())?;
    Ok(reading)
}

fn read_word(alloc: Global, term: &Word) -> Result<Reading, AllocError>
    ensures { IfOk result (λ reading. readings.seen_reading reading ≡ readings.term_reading term.now) }
{
    if !is_short(term.bytes()) {
        return Err(AllocError);
    }
    let reading = read_short_term(alloc, term.bytes())?;
    Ok(reading)
}

/// What the block that a line opens, or its term, is read as; None for a line with neither.
#[tactic(auto, unfolding(crate::specs::Readings::reading))]
pub fn read_line(alloc: Global, line: &Line, after: &[u8]) -> Result<Option<Reading>, AllocError>
    ensures { IfOk result (λ reading. option_map readings.seen_reading reading
        ≡ readings.reading line.now (lines_below line.now after.now)) }
{
    match line {
        Line::Block(line) => Ok(Some(read_block(alloc, line, after)?)),
        Line::Bill(line) => Ok(Some(read_word(alloc, &line.quantity)?)),
        Line::Operation(line) => Ok(Some(read_word(alloc, &line.time)?)),
        _ => Ok(None),
    }
}

/// Whether a line has a block or a term that isn't in the dependency language.
#[tactic(auto, unfolding(crate::specs::Readings::seen_reading))]
pub fn is_unread(reading: &Option<Reading>) -> bool
    ensures { result ≡ readings.tells_unread (option_map readings.seen_reading reading.now) }
{
    match reading {
        Some(Reading::Unread) => true,
        _ => false,
    }
}
