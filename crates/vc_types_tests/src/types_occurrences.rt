//! What stands in a statement.

use std::alloc::Global;
use std::process::Abort;
use std::test::Fail;
use vc_model_parts::{Characteristic, Class, Model, NamedDependency, Net, Object, Table};
use vc_syntax_tree::{
    Action, Apart, Condition, Dependency, NameLeaf, Operand, ShortWord, Statement, Term,
};
use vc_types::{At, Place};
use vc_types_meanings::{Setting, Tree, borrowed};
use vc_types_names::Names;
use vc_types_occurrences::gathering::{gather_leaves, gather_parts, gather_terms};
use vc_value::{Listed, Word};

fn leaf<R: Abort>(rt: &R, alloc: Global, text: &str) -> NameLeaf {
    NameLeaf {
        name: ShortWord::from_bytes(alloc, text.as_bytes()).expect(rt, "memory"),
        start: 0,
        end: 0,
    }
}

// A model with nothing in it.
fn model(alloc: Global) -> Model {
    let characteristics: Listed<Characteristic> = Listed::new(alloc);
    let classes: Listed<Class> = Listed::new(alloc);
    let tables: Listed<Table> = Listed::new(alloc);
    let dependencies: Listed<NamedDependency> = Listed::new(alloc);
    let nets: Listed<Net> = Listed::new(alloc);
    let objects: Listed<Object> = Listed::new(alloc);
    Model {
        name: Word::new(alloc),
        version: 1,
        characteristics,
        texts: Listed::new(alloc),
        classes,
        tables,
        dependencies,
        nets,
        objects,
        root: 0,
    }
}

// `$SELF.A = B IF PART_OF ( ?X , ?Y )`.
fn procedure<R: Abort>(rt: &R, alloc: Global) -> Dependency {
    let term = Term::Operand(Operand::Plain(leaf(rt, alloc, "B")));
    let part = Apart::new(alloc, leaf(rt, alloc, "X")).expect(rt, "memory");
    let condition = Condition::PartOf(part, leaf(rt, alloc, "Y"));
    let mut statements = Listed::new(alloc);
    statements
        .push(Statement {
            action: Action::Assign(
                leaf(rt, alloc, "A"),
                Box::new(alloc, term).expect(rt, "memory"),
            ),
            condition: Some(Box::new(alloc, condition).expect(rt, "memory")),
        })
        .expect(rt, "memory");
    Dependency::Procedure(statements)
}

// How many conditions, terms, operands and variables of PART_OF stand in it.
fn counts<R: Abort>(rt: &R, alloc: Global, tree: Tree) -> [usize; 4] {
    let model = model(alloc);
    let names = Names::new(alloc, &model).expect(rt, "memory");
    let place = Place {
        object: 0,
        parent: None,
        at: At::Procedure,
    };
    let setting = Setting::new(alloc, &names, place, tree).expect(rt, "memory");
    let parts = gather_parts(alloc, tree).expect(rt, "memory");
    let terms = gather_terms(alloc, tree, &parts).expect(rt, "memory");
    let leaves = gather_leaves(alloc, &setting, tree, &parts, &terms).expect(rt, "memory");
    [
        parts.conditions.len(),
        terms.all.len(),
        leaves.uses.len(),
        leaves.parted.len(),
    ]
}

#[test]
fn a_statement_has_its_parts(rt: HostRuntime) -> Result<(), Fail> {
    let procedure = procedure(&rt, rt.alloc());
    let counts = counts(&rt, rt.alloc(), borrowed(&procedure));
    assert!(rt; counts == [1, 1, 2, 2]);
    Ok(())
}
