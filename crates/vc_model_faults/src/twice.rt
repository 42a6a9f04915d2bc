//! Whether a line declares, lists or uses what is declared, listed or used already.

ghost use Rattle.std.specs.Prelude.{◌≡◌};
ghost use Rattle.vc_model_scope.specs.Names.{is_among};
ghost use Rattle.vc_model_faults.specs.Twice as twice;

use vc_model_lines::Line;
use vc_model_scope::contents::entry_of;
use vc_model_scope::entries::{Entries, Interval};
use vc_model_scope::names::Names;
use vc_model_scope::naming::{Declared, Dependencies};
use vc_model_scope::scope::Scope;
use vc_value::Word;

/// Whether the name is among these.
pub fn has(names: &Names, name: &Word) -> bool
    ensures { result ≡ is_among names.now name.now }
{
    names.has(name.bytes())
}

/// Whether a net or a dependency of the name is declared.
pub fn is_declared(dependencies: &Dependencies, name: &Word) -> bool
    ensures { result ≡ twice.is_declared dependencies.now name.now }
{
    has(&dependencies.nets, name) || has(&dependencies.all, name)
}

fn is_material_taken(declared: &Declared, material: &Word) -> bool
    ensures { result ≡ twice.is_material_taken declared.now material.now }
{
    has(&declared.objects, material) || has(&declared.components, material)
}

fn is_listed(entries: &Entries, entry: Option<Interval>) -> bool
    ensures { result ≡ twice.is_listed entries.now entry }
{
    match entry {
        Some(entry) => entries.has(entry),
        None => false,
    }
}

/// Whether the line does so.
#[tactic(auto, unfolding(crate::specs::Twice::is_twice))]
pub fn is_twice(scope: &Scope, line: &Line) -> bool
    ensures { result ≡ twice.is_twice scope.now line.now }
{
    match line {
        Line::Char(line) => has(&scope.declared.characteristics, &line.name),
        Line::Num(line) => has(&scope.declared.characteristics, &line.name),
        Line::Text(text) => has(&scope.standing.texts, text),
        Line::Interval(_) => is_listed(&scope.standing.entries, entry_of(line)),
        Line::Uses(name) => has(&scope.uses.names, name),
        Line::Class(name) => has(&scope.declared.classes, name),
        Line::Has(name) => has(&scope.standing.members, name),
        Line::Table(line) => has(&scope.declared.tables, &line.name),
        Line::Column(line) => has(&scope.standing.columns, &line.characteristic),
        Line::Net(name) => is_declared(&scope.dependencies, name),
        Line::Block(line) => is_declared(&scope.dependencies, &line.name),
        Line::Object(line) => is_material_taken(&scope.declared, &line.material),
        _ => false,
    }
}
