//! A model of one object whose class has a number and a set of texts, and what dependencies say there.

use crate::fixtures::{layout, model, name};
use std::alloc::Global;
use std::process::Abort;
use std::test::Fail;
use vc_compile_layout::Layout;
use vc_compile_sites::{Site, condition_at, term_at};
use vc_model_parts::parts::{Model, NamedDependency, Net};
use vc_plan::{Condition as PlanCondition, Term as PlanTerm};
use vc_syntax_tree::{
    Apart, Condition, Item, NumberLeaf, Operand, Relation, ShortWord, Term, TextLeaf,
};
use vc_types::{At, Place};
use vc_types_meanings::{Setting, Tree};
use vc_types_names::Names;
use vc_value::{Dec, Listed, Value};

fn text<R: Abort>(rt: &R, alloc: Global, text: &str) -> TextLeaf {
    TextLeaf {
        text: ShortWord::from_bytes(alloc, text.as_bytes()).expect(rt, "memory"),
        start: 0,
        end: 1,
    }
}

fn without_dependencies<R: Abort>(rt: &R, alloc: Global) -> Model {
    let dependencies: Listed<NamedDependency> = Listed::new(alloc);
    let nets: Listed<Net> = Listed::new(alloc);
    model(rt, alloc, dependencies, nets, Listed::new(alloc))
}

const ROOT: Place = Place {
    object: 0,
    parent: None,
    at: At::Characteristic,
};

// - 5
fn minus_five<R: Abort>(rt: &R, alloc: Global) -> Term {
    let five = Term::Number(NumberLeaf {
        number: Dec {
            millionths: 5_000_000,
        },
        start: 0,
        end: 1,
    });
    Term::Negated(Box::new(alloc, five).expect(rt, "memory"))
}

// EXTRAS IN ( 'B' )
fn has_b<R: Abort>(rt: &R, alloc: Global) -> Condition {
    let mut items = Listed::new(alloc);
    items
        .push(Item::Text(text(rt, alloc, "B")))
        .expect(rt, "memory");
    let operand = Operand::Plain(name(rt, alloc, "EXTRAS"));
    let operand = Apart::new(alloc, operand).expect(rt, "memory");
    Condition::Relation(Relation::Within(operand, items))
}

fn is_minus_five(term: &PlanTerm) -> bool {
    match term {
        PlanTerm::Literal(Value::Num(number)) => number.millionths == -5_000_000,
        _ => false,
    }
}

fn holds_b(condition: &PlanCondition) -> bool {
    match condition {
        PlanCondition::Holds { set, text } => *set == 0 && *text == 1,
        _ => false,
    }
}

fn terms_are_kept<R: Abort>(
    rt: &R,
    alloc: Global,
    layout: &Layout<'_, '_>,
    site: &Site<'_, '_, '_, '_>,
) -> bool {
    let literal = term_at(alloc, layout, site, &minus_five(rt, alloc)).expect(rt, "memory");
    is_minus_five(&literal)
}

fn conditions_are_kept<R: Abort>(
    rt: &R,
    alloc: Global,
    layout: &Layout<'_, '_>,
    site: &Site<'_, '_, '_, '_>,
) -> bool {
    let condition = condition_at(alloc, layout, site, &has_b(rt, alloc)).expect(rt, "memory");
    holds_b(&condition)
}

fn all_is_kept<R: Abort>(
    rt: &R,
    alloc: Global,
    layout: &Layout<'_, '_>,
    setting: &Setting<'_, '_, '_>,
) -> bool {
    let site = Site {
        setting,
        own: 0,
        parent: 0,
        objects: &[],
        slots: &[],
    };
    terms_are_kept(rt, alloc, layout, &site) && conditions_are_kept(rt, alloc, layout, &site)
}

// What is built is dropped on one path alone: each path more is proved anew.
fn in_a_setting<R: Abort>(
    rt: &R,
    alloc: Global,
    names: &Names<'_>,
    layout: &Layout<'_, '_>,
) -> bool {
    let setting = Setting::new(alloc, names, ROOT, Tree::Procedure(&[])).expect(rt, "memory");
    let kept = all_is_kept(rt, alloc, layout, &setting);
    drop(setting);
    kept
}

fn in_a_layout<R: Abort>(rt: &R, alloc: Global, names: &Names<'_>) -> bool {
    let layout = layout(alloc, names).expect(rt, "memory");
    let kept = in_a_setting(rt, alloc, names, &layout);
    drop(layout);
    kept
}

fn in_a_model<R: Abort>(rt: &R, alloc: Global, model: &Model) -> bool {
    let names = Names::new(alloc, model).expect(rt, "memory");
    let kept = in_a_layout(rt, alloc, &names);
    drop(names);
    kept
}

fn of_the_model<R: Abort>(rt: &R, alloc: Global) -> bool {
    let model = without_dependencies(rt, alloc);
    let kept = in_a_model(rt, alloc, &model);
    drop(model);
    kept
}

#[test]
fn trees_are_kept_where_they_stand(rt: HostRuntime) -> Result<(), Fail> {
    assert!(rt; of_the_model(&rt, rt.alloc()));
    Ok(())
}
