//! Whether a line would make one more than a limit allows.

ghost use Rattle.std.specs.Prelude.{◌≡◌};
ghost use Rattle.vc_model_faults.specs.Limits as limits;

use vc_model_lines::Line;
use vc_model_scope::scope::Scope;

const MOST_CHARACTERISTICS: usize = 2_000;
/// For each characteristic.
const MOST_VALUES: usize = 1_000;

const MOST_CLASSES: usize = 500;
/// For each class.
const MOST_MEMBERS: usize = 500;

const MOST_TABLES: usize = 200;
/// For each table.
const MOST_COLUMNS: usize = 20;

const MOST_DEPENDENCIES: usize = 2_000;

const MOST_NETS: usize = 200;

const MOST_OBJECTS: usize = 500;
/// For each object.
const MOST_ITEMS: usize = 1_000;
/// For each object.
const MOST_OPERATIONS: usize = 1_000;
/// For each place.
const MOST_USES: usize = 100;

/// Whether the line would do so.
#[tactic(auto, unfolding(crate::specs::Limits::is_too_many))]
pub fn is_too_many(scope: &Scope, line: &Line) -> bool
    ensures { result ≡ limits.is_too_many scope.now line.now }
{
    match line {
        Line::Char(_) | Line::Num(_) => {
            scope.declared.characteristics.len() >= MOST_CHARACTERISTICS
        }
        Line::Text(_) => scope.standing.texts.len() >= MOST_VALUES,
        Line::Interval(_) => scope.standing.entries.len() >= MOST_VALUES,
        Line::Uses(_) => scope.uses.names.len() >= MOST_USES,
        Line::Class(_) => scope.declared.classes.len() >= MOST_CLASSES,
        Line::Has(_) => scope.standing.members.len() >= MOST_MEMBERS,
        Line::Table(_) => scope.declared.tables.len() >= MOST_TABLES,
        Line::Column(_) => scope.standing.columns.len() >= MOST_COLUMNS,
        Line::Net(_) => scope.dependencies.nets.len() >= MOST_NETS,
        Line::Object(_) => scope.declared.objects.len() >= MOST_OBJECTS,
        Line::Bill(_) => scope.standing.items.len() >= MOST_ITEMS,
        Line::Operation(_) => scope.standing.operations.len() >= MOST_OPERATIONS,
        Line::Block(_) => scope.dependencies.all.len() >= MOST_DEPENDENCIES,
        _ => false,
    }
}
