//! The names that are declared above a line.

ghost use Rattle.std.specs.Prelude.{◌≡◌, [], OnOk};
ghost use Rattle.vc_model_scope.specs.Naming as naming;

use crate::contents::{
    characteristic_of, class_of, component_of, dependency_as, dependency_of, multiple_of, net_of,
    object_of, table_of, text_of,
};
use crate::names::Names;
use crate::tables::declare;
use std::alloc::{AllocError, Global};
use vc_model_lines::Line;
use vc_syntax_tokens::Kind;

/// Names of things, each kind of thing by itself, in the order of the text.
#[derive(Drop)]
pub struct Declared {
    pub characteristics: Names,
    /// The characteristics with MULTIPLE.
    pub multiples: Names,
    pub classes: Names,
    pub tables: Names,
    /// The materials of objects.
    pub objects: Names,
    /// The materials in bills.
    pub components: Names,
    /// The texts of values, which are numbered in this order.
    pub texts: Names,
}

/// Names of nets and dependencies in the order of the text.
#[derive(Drop)]
pub struct Dependencies {
    pub nets: Names,
    /// The dependencies of all kinds.
    pub all: Names,
    pub preconditions: Names,
    pub selections: Names,
    pub procedures: Names,
    pub constraints: Names,
}

impl Declared {
    /// What is declared above the first line.
    pub fn new(alloc: Global) -> Declared
        ensures { result ≡ naming.declared_in [] }
    {
        Declared {
            characteristics: Names::new(alloc),
            multiples: Names::new(alloc),
            classes: Names::new(alloc),
            tables: Names::new(alloc),
            objects: Names::new(alloc),
            components: Names::new(alloc),
            texts: Names::new(alloc),
        }
    }

    /// Adds what a line declares.
    pub fn extend(&mut self, alloc: Global, line: &Line) -> Result<(), AllocError>
        ensures { OnOk result (self.new ≡ naming.with_declared self.old line.now) }
    {
        declare(alloc, &mut self.characteristics, characteristic_of(line))?;
        declare(alloc, &mut self.multiples, multiple_of(line))?;
        declare(alloc, &mut self.classes, class_of(line))?;
        declare(alloc, &mut self.tables, table_of(line))?;
        declare(alloc, &mut self.objects, object_of(line))?;
        declare(alloc, &mut self.components, component_of(line))?;
        declare(alloc, &mut self.texts, text_of(line))?;
        Ok(())
    }
}

impl Dependencies {
    /// What is declared above the first line.
    pub fn new(alloc: Global) -> Dependencies
        ensures { result ≡ naming.dependencies_in [] }
    {
        Dependencies {
            nets: Names::new(alloc),
            all: Names::new(alloc),
            preconditions: Names::new(alloc),
            selections: Names::new(alloc),
            procedures: Names::new(alloc),
            constraints: Names::new(alloc),
        }
    }

    /// Adds what a line declares.
    pub fn extend(&mut self, alloc: Global, line: &Line) -> Result<(), AllocError>
        ensures { OnOk result (self.new ≡ naming.with_dependencies self.old line.now) }
    {
        declare(alloc, &mut self.nets, net_of(line))?;
        declare(alloc, &mut self.all, dependency_of(line))?;
        let precondition = dependency_as(Kind::Precondition, line);
        declare(alloc, &mut self.preconditions, precondition)?;
        let selection = dependency_as(Kind::Selection, line);
        declare(alloc, &mut self.selections, selection)?;
        let procedure = dependency_as(Kind::Procedure, line);
        declare(alloc, &mut self.procedures, procedure)?;
        let constraint = dependency_as(Kind::Constraint, line);
        declare(alloc, &mut self.constraints, constraint)?;
        Ok(())
    }
}
