//! The rules of a model of one object, whose net has a constraint that forbids it.

use crate::fixtures::{layout, model, name, word};
use std::alloc::Global;
use std::process::Abort;
use std::test::Fail;
use vc_compile_constraints::push_constraint_rules;
use vc_compile_layout::Layout;
use vc_compile_numbering::{Numbering, Trees};
use vc_compile_rules::Room;
use vc_compile_rules::own::{push_last_rules, push_line_rules};
use vc_model_parts::parts::{Model, NamedDependency, Net};
use vc_plan::{Kind, Rule};
use vc_syntax_tree::{
    Constraint, Demand, Dependency, Object as Declared, ObjectKind, Operand, Restriction,
};
use vc_types_names::Names;
use vc_value::Listed;

// A constraint on an object of class K, which forbids that there is one.
fn constraint<R: Abort>(rt: &R, alloc: Global) -> Constraint {
    let mut objects = Listed::new(alloc);
    objects
        .push(Declared {
            variable: name(rt, alloc, "X"),
            kind: ObjectKind::Class(name(rt, alloc, "K")),
            aliases: Listed::new(alloc),
        })
        .expect(rt, "memory");
    let mut restrictions = Listed::new(alloc);
    restrictions
        .push(Restriction {
            demand: Demand::False,
            condition: None,
        })
        .expect(rt, "memory");
    let inferences: Listed<Operand> = Listed::new(alloc);
    Constraint {
        objects,
        condition: None,
        restrictions,
        inferences,
    }
}

fn dependencies<R: Abort>(rt: &R, alloc: Global) -> Listed<NamedDependency> {
    let mut dependencies = Listed::new(alloc);
    dependencies
        .push(NamedDependency {
            name: word(rt, alloc, "C_NEVER"),
            tree: Dependency::Constraint(constraint(rt, alloc)),
            line: 1,
        })
        .expect(rt, "memory");
    dependencies
}

fn zero<R: Abort>(rt: &R, alloc: Global) -> Listed<u32> {
    let mut numbers = Listed::new(alloc);
    numbers.push(0).expect(rt, "memory");
    numbers
}

fn nets<R: Abort>(rt: &R, alloc: Global) -> Listed<Net> {
    let mut nets = Listed::new(alloc);
    nets.push(Net {
        name: word(rt, alloc, "N"),
        constraints: zero(rt, alloc),
    })
    .expect(rt, "memory");
    nets
}

fn forbidding<R: Abort>(rt: &R, alloc: Global) -> Model {
    model(
        rt,
        alloc,
        dependencies(rt, alloc),
        nets(rt, alloc),
        zero(rt, alloc),
    )
}

fn push_all<R: Abort>(
    rt: &R,
    alloc: Global,
    layout: &Layout<'_, '_>,
    out: &mut Numbering<Rule>,
) -> bool {
    let first = push_constraint_rules(alloc, layout, out).expect(rt, "memory");
    let second = push_last_rules(alloc, layout, out).expect(rt, "memory");
    let third = push_line_rules(alloc, layout, out).expect(rt, "memory");
    first == Room::Enough && second == Room::Enough && third == Room::Enough
}

fn are_made(rules: &[Rule]) -> bool {
    match rules {
        [first, second] => match (&first.kind, &second.kind) {
            (Kind::Never, Kind::Last(var)) => first.number == 1 && second.number == 0 && *var == 0,
            _ => false,
        },
        _ => false,
    }
}

fn of_the_layout<R: Abort>(rt: &R, alloc: Global, layout: &Layout<'_, '_>) -> bool {
    let mut out = Numbering::over(alloc, Trees::with_capacity(alloc, 0).expect(rt, "memory"));
    let enough = push_all(rt, alloc, layout, &mut out);
    let made = are_made(out.items.as_slice());
    drop(out);
    enough && made
}

// What is built is dropped on one path alone: each path more is proved anew.
fn in_a_layout<R: Abort>(rt: &R, alloc: Global, names: &Names<'_>) -> bool {
    let layout = layout(alloc, names).expect(rt, "memory");
    let made = of_the_layout(rt, alloc, &layout);
    drop(layout);
    made
}

fn in_a_model<R: Abort>(rt: &R, alloc: Global, model: &Model) -> bool {
    let names = Names::new(alloc, model).expect(rt, "memory");
    let made = in_a_layout(rt, alloc, &names);
    drop(names);
    made
}

fn of_the_model<R: Abort>(rt: &R, alloc: Global) -> bool {
    let model = forbidding(rt, alloc);
    let made = in_a_model(rt, alloc, &model);
    drop(model);
    made
}

#[test]
fn rules_are_made(rt: HostRuntime) -> Result<(), Fail> {
    assert!(rt; of_the_model(&rt, rt.alloc()));
    Ok(())
}
