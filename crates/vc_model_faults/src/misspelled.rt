//! Whether a word of a line must be a name, a material or a unit, and isn't one.

ghost use Rattle.std.specs.Prelude.{◌≡◌};
ghost use Rattle.vc_model_faults.specs.Misspelled as spelled;

use vc_model_lines::spelling::{is_free_name, is_material, is_unit};
use vc_model_lines::{BillLine, Line, NumLine, ObjectLine, OperationLine};
use vc_value::is_name;

fn is_misspelled_num(line: &NumLine) -> bool
    ensures { result ≡ spelled.is_misspelled_num line.now }
{
    !is_free_name(line.name.bytes()) || !is_unit(&line.unit)
}

fn is_misspelled_object(line: &ObjectLine) -> bool
    ensures { result ≡ spelled.is_misspelled_object line.now }
{
    !is_material(line.material.bytes()) || !is_name(line.class.bytes())
}

fn is_misspelled_bill(line: &BillLine) -> bool
    ensures { result ≡ spelled.is_misspelled_bill line.now }
{
    !is_material(line.material.bytes()) || !is_material(line.unit.bytes())
}

fn is_misspelled_operation(line: &OperationLine) -> bool
    ensures { result ≡ spelled.is_misspelled_operation line.now }
{
    !is_name(line.centre.bytes()) || !is_material(line.unit.bytes())
}

/// Whether the line has such a word.
#[tactic(auto, unfolding(crate::specs::Misspelled::is_misspelled))]
pub fn is_misspelled(line: &Line) -> bool
    ensures { result ≡ spelled.is_misspelled line.now }
{
    match line {
        Line::Head(line) => !is_name(line.name.bytes()),
        Line::Char(line) => !is_free_name(line.name.bytes()),
        Line::Num(line) => is_misspelled_num(line),
        Line::Uses(name) => !is_name(name.bytes()),
        Line::Class(name) => !is_name(name.bytes()),
        Line::Has(name) => !is_name(name.bytes()),
        Line::Net(name) => !is_name(name.bytes()),
        Line::Table(line) => !is_name(line.name.bytes()),
        Line::Column(line) => !is_name(line.characteristic.bytes()),
        Line::Object(line) => is_misspelled_object(line),
        Line::Bill(line) => is_misspelled_bill(line),
        Line::Operation(line) => is_misspelled_operation(line),
        Line::Block(line) => !is_name(line.name.bytes()),
        Line::Root(material) => !is_material(material.bytes()),
        _ => false,
    }
}
