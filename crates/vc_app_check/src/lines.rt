//! What is written of a model, in one line.

ghost use Rattle.std.specs.Prelude.{◌≡◌, ◌++◌, vec_items, IfOk};
ghost use Rattle.vc_app_check.specs.Lines as lines;

use crate::counts::Counts;
use std::alloc::{AllocError, Global};
use vc_app_models::ModelStop;
use vc_compile_plan::CompileFault;
use vc_model_faults::ModelFaultKind;
use vc_outside::FileFault;
use vc_table::TableFault;
use vc_value::Word;

// A name between two texts.
fn named(alloc: Global, before: &str, name: &[u8], after: &str) -> Result<Word, AllocError>
    ensures { IfOk result (λ line. line ≡ before.now ++ (name.now ++ after.now)) }
{
    let mut line = Word::new(alloc);
    line.append_text(before)?;
    line.append(name)?;
    line.append_text(after)?;
    Ok(line)
}

fn text(alloc: Global, text: &str) -> Result<Word, AllocError>
    ensures { IfOk result (λ line. line ≡ text.now) }
{
    Word::from_bytes(alloc, text.as_bytes())
}

/// The counts of a plan.
pub fn counts_line(alloc: Global, counts: Counts) -> Result<Word, AllocError>
    ensures { IfOk result (λ line. line ≡ lines.counts_line counts) }
{
    let Counts {
        slots,
        variables,
        rules,
        atoms,
        cells,
    } = counts;
    let line = format!(in alloc;
        "ok: {slots} slots, {variables} variables, {rules} rules, {atoms} atoms, {cells} cells\n"
    )?;
    text(alloc, line.as_str())
}

/// Why the file of this name was not read.
pub fn file_line(alloc: Global, name: &[u8], fault: FileFault) -> Result<Word, AllocError>
    ensures { IfOk result (λ line. line ≡ lines.file_line name.now fault) }
{
    match fault {
        FileFault::Missing => named(alloc, "no such file: ", name, "\n"),
        FileFault::Failed => named(alloc, "read fault: ", name, "\n"),
        FileFault::TooLarge => named(alloc, "too large: ", name, "\n"),
        FileFault::OutOfMemory => text(alloc, "no memory\n"),
    }
}

// Why a text spells no model.
fn text_line(alloc: Global, kind: ModelFaultKind, line: u32) -> Result<Word, AllocError>
    ensures { IfOk result (λ told. told ≡ lines.text_line kind line) }
{
    let number = kind.number();
    let told = format!(in alloc; "model refused: text {number} line {line}\n")?;
    text(alloc, told.as_str())
}

// Why the file of the table of this name has no rows of it.
fn table_line(alloc: Global, table: &[u8], fault: TableFault) -> Result<Word, AllocError>
    ensures { IfOk result (λ line. line ≡ lines.table_line table.now fault) }
{
    match fault.number() {
        Some(number) => {
            let row = fault.row();
            let after = format!(in alloc; " {number} row {row}\n")?;
            named(alloc, "model refused: table ", table, after.as_str())
        }
        None => text(alloc, "no memory\n"),
    }
}

// Which size is too large.
fn size_line(alloc: Global, number: Option<u8>) -> Result<Word, AllocError>
    ensures { IfOk result (λ line. line ≡ lines.size_line number) }
{
    match number {
        Some(number) => {
            let told = format!(in alloc; "model refused: size {number}\n")?;
            text(alloc, told.as_str())
        }
        None => text(alloc, "no memory\n"),
    }
}

// Why a model has no plan.
fn compile_line(alloc: Global, fault: CompileFault) -> Result<Word, AllocError>
    ensures { IfOk result (λ line. line ≡ lines.compile_line fault) }
{
    match fault {
        CompileFault::Typing { kind, line } => {
            let number = kind.number();
            let told = format!(in alloc; "model refused: type {number} line {line}\n")?;
            text(alloc, told.as_str())
        }
        CompileFault::TooDeep
        | CompileFault::TooManySlots
        | CompileFault::TooManyRules
        | CompileFault::TooManyAtoms
        | CompileFault::TooManyCells
        | CompileFault::OutOfMemory => size_line(alloc, fault.number()),
    }
}

/// Why the model of this name has no plan.
pub fn stop_line(alloc: Global, name: &str, stop: &ModelStop) -> Result<Word, AllocError>
    ensures { IfOk result (λ line. line ≡ lines.stop_line name.now stop.now) }
{
    match stop {
        ModelStop::Unread(fault) => file_line(alloc, name.as_bytes(), *fault),
        ModelStop::TextRefused { kind, line } => text_line(alloc, *kind, *line),
        ModelStop::TableUnread { file, fault } => file_line(alloc, file.bytes(), *fault),
        ModelStop::TableRefused { table, fault } => table_line(alloc, table.bytes(), *fault),
        ModelStop::Uncompiled(fault) => compile_line(alloc, *fault),
        ModelStop::OutOfMemory => text(alloc, "no memory\n"),
    }
}
