//! What a line declares, lists or names.

ghost use Rattle.std.specs.Prelude.{◌≡◌, option_copied};
ghost use Rattle.vc_model_scope.specs.Contents as contents;

use crate::entries::Interval;
use vc_model_lines::{BlockLine, IntervalLine, Line};
use vc_syntax_tokens::Kind;
use vc_value::Word;

/// The characteristic that the line declares.
pub fn characteristic_of(line: &Line) -> Option<&Word>
    ensures { option_copied result ≡ contents.characteristic_of line.now }
{
    match line {
        Line::Char(line) => Some(&line.name),
        Line::Num(line) => Some(&line.name),
        _ => None,
    }
}

/// The characteristic that the line declares with MULTIPLE.
pub fn multiple_of(line: &Line) -> Option<&Word>
    ensures { option_copied result ≡ contents.multiple_of line.now }
{
    match line {
        Line::Char(line) => {
            if line.multiple {
                Some(&line.name)
            } else {
                None
            }
        }
        _ => None,
    }
}

/// The class that the line declares.
pub fn class_of(line: &Line) -> Option<&Word>
    ensures { option_copied result ≡ contents.class_of line.now }
{
    match line {
        Line::Class(name) => Some(name),
        _ => None,
    }
}

/// The table that the line declares.
pub fn table_of(line: &Line) -> Option<&Word>
    ensures { option_copied result ≡ contents.table_of line.now }
{
    match line {
        Line::Table(line) => Some(&line.name),
        _ => None,
    }
}

/// The object that the line declares, by its material.
pub fn object_of(line: &Line) -> Option<&Word>
    ensures { option_copied result ≡ contents.object_of line.now }
{
    match line {
        Line::Object(line) => Some(&line.material),
        _ => None,
    }
}

/// The material that the line has in a bill.
pub fn component_of(line: &Line) -> Option<&Word>
    ensures { option_copied result ≡ contents.component_of line.now }
{
    match line {
        Line::Bill(line) => Some(&line.material),
        _ => None,
    }
}

/// The net that the line declares.
pub fn net_of(line: &Line) -> Option<&Word>
    ensures { option_copied result ≡ contents.net_of line.now }
{
    match line {
        Line::Net(name) => Some(name),
        _ => None,
    }
}

/// The dependency whose block the line opens.
pub fn dependency_of(line: &Line) -> Option<&Word>
    ensures { option_copied result ≡ contents.dependency_of line.now }
{
    match line {
        Line::Block(line) => Some(&line.name),
        _ => None,
    }
}

fn name_as(kind: Kind, line: &BlockLine) -> Option<&Word>
    ensures { option_copied result ≡ contents.name_as kind line.now }
{
    if line.kind == kind {
        Some(&line.name)
    } else {
        None
    }
}

/// The dependency whose block the line opens, if it is of the kind.
pub fn dependency_as(kind: Kind, line: &Line) -> Option<&Word>
    ensures { option_copied result ≡ contents.dependency_as kind line.now }
{
    match line {
        Line::Block(line) => name_as(kind, line),
        _ => None,
    }
}

/// The text that the line lists as a value.
pub fn text_of(line: &Line) -> Option<&Word>
    ensures { option_copied result ≡ contents.text_of line.now }
{
    match line {
        Line::Text(text) => Some(text),
        _ => None,
    }
}

fn entry_within(line: &IntervalLine) -> Option<Interval>
    ensures { result ≡ contents.entry_within line.now.low line.now.high }
{
    match line.low {
        Some(low) => match line.high {
            Some(high) => Some(Interval { low, high }),
            None => None,
        },
        None => None,
    }
}

/// The numbers that the line lists as a value, if both ends are numbers.
pub fn entry_of(line: &Line) -> Option<Interval>
    ensures { result ≡ contents.entry_of line.now }
{
    match line {
        Line::Interval(line) => entry_within(line),
        _ => None,
    }
}

/// The characteristic that the line gives to a class.
pub fn member_of(line: &Line) -> Option<&Word>
    ensures { option_copied result ≡ contents.member_of line.now }
{
    match line {
        Line::Has(name) => Some(name),
        _ => None,
    }
}

/// The characteristic that the line makes a column of a table.
pub fn column_of(line: &Line) -> Option<&Word>
    ensures { option_copied result ≡ contents.column_of line.now }
{
    match line {
        Line::Column(line) => Some(&line.characteristic),
        _ => None,
    }
}

/// The dependency or net that the line uses.
pub fn use_of(line: &Line) -> Option<&Word>
    ensures { option_copied result ≡ contents.use_of line.now }
{
    match line {
        Line::Uses(name) => Some(name),
        _ => None,
    }
}

/// The item of the bill that the line is, if that is a number.
pub fn item_of(line: &Line) -> Option<u16>
    ensures { result ≡ contents.item_of line.now }
{
    match line {
        Line::Bill(line) => line.item,
        _ => None,
    }
}

/// The number of the operation that the line is, if it is one.
pub fn operation_of(line: &Line) -> Option<u16>
    ensures { result ≡ contents.operation_of line.now }
{
    match line {
        Line::Operation(line) => line.number,
        _ => None,
    }
}
