//! A condition and a quantity at the root of a model with one characteristic of texts.

use std::alloc::{AllocError, Global};
use std::test::Fail;
use vc_model_parts::{
    Characteristic, Class, Model, NamedDependency, Net, Object as Material, Table, Values,
};
use vc_syntax_tree::{
    Condition, Dependency, NameLeaf, NumberLeaf, Operand, Relation, Relator, ShortWord, Term,
    TextLeaf,
};
use vc_types::{At, Meaning, Place, Sort, TypeFaultKind};
use vc_types_dependency::{Instance, TypeFault, type_dependency, type_term};
use vc_types_meanings::Tree;
use vc_types_names::Names;
use vc_value::{Dec, Listed, Word};

fn word(alloc: Global, text: &str) -> Result<Word, AllocError> {
    Word::from_bytes(alloc, text.as_bytes())
}

fn characteristics(alloc: Global) -> Result<Listed<Characteristic>, AllocError> {
    let mut all = Listed::new(alloc);
    all.push(Characteristic {
        name: word(alloc, "A")?,
        restrictable: false,
        required: false,
        uses: Listed::new(alloc),
        values: Values::Texts {
            length: 1,
            multiple: false,
            values: Listed::new(alloc),
        },
    })?;
    Ok(all)
}

fn classes(alloc: Global) -> Result<Listed<Class>, AllocError> {
    let mut members = Listed::new(alloc);
    members.push(0)?;
    let mut classes = Listed::new(alloc);
    classes.push(Class {
        name: word(alloc, "K")?,
        members,
    })?;
    Ok(classes)
}

fn materials(alloc: Global) -> Result<Listed<Material>, AllocError> {
    let mut materials = Listed::new(alloc);
    materials.push(Material {
        material: word(alloc, "M")?,
        class: 0,
        nets: Listed::new(alloc),
        procedures: Listed::new(alloc),
        bill: Listed::new(alloc),
        operations: Listed::new(alloc),
    })?;
    Ok(materials)
}

fn model(alloc: Global) -> Result<Model, AllocError> {
    let tables: Listed<Table> = Listed::new(alloc);
    let dependencies: Listed<NamedDependency> = Listed::new(alloc);
    let nets: Listed<Net> = Listed::new(alloc);
    Ok(Model {
        name: word(alloc, "M")?,
        version: 1,
        characteristics: characteristics(alloc)?,
        texts: Listed::new(alloc),
        classes: classes(alloc)?,
        tables,
        dependencies,
        nets,
        objects: materials(alloc)?,
        root: 0,
    })
}

fn operand(alloc: Global) -> Result<Operand, AllocError> {
    Ok(Operand::Plain(NameLeaf {
        name: ShortWord::from_bytes(alloc, b"A")?,
        start: 0,
        end: 1,
    }))
}

fn text(alloc: Global) -> Result<Term, AllocError> {
    Ok(Term::Text(TextLeaf {
        text: ShortWord::from_bytes(alloc, b"X")?,
        start: 4,
        end: 7,
    }))
}

// `A` and `'X'`, related.
fn precondition(alloc: Global, relator: Relator) -> Result<Dependency, AllocError> {
    let left = Box::new(alloc, Term::Operand(operand(alloc)?))?;
    let right = Box::new(alloc, text(alloc)?)?;
    let relation = Relation::Compared(left, relator, right);
    let condition = Box::new(alloc, Condition::Relation(relation))?;
    Ok(Dependency::Precondition(condition))
}

const AT_LINE: Place = Place {
    object: 0,
    parent: None,
    at: At::Line {
        configurable: false,
    },
};

const AT_ROOT: Place = Place {
    object: 0,
    parent: None,
    at: At::Characteristic,
};

// The fault of a dependency at the root.
fn judged(alloc: Global, names: &Names, dependency: &Dependency) -> Option<TypeFault> {
    match type_dependency(alloc, names, dependency, &AT_ROOT) {
        Ok(_) => None,
        Err(fault) => Some(fault),
    }
}

// The instance of which an operand of the quantity of a line names a characteristic.
fn instance(alloc: Global, names: &Names, quantity: &Term, operand: &Operand) -> Option<Instance> {
    match type_term(alloc, names, quantity, &AT_LINE) {
        Ok(typed) => Some(typed.instance(operand)),
        Err(_) => None,
    }
}

// The size that the quantity of a line has at most.
fn bounded(alloc: Global, names: &Names, quantity: &Term) -> Option<u128> {
    match type_term(alloc, names, quantity, &AT_LINE) {
        Ok(typed) => typed.bound(quantity),
        Err(_) => None,
    }
}

// The fault of `A` and `'X'`, related so.
fn fault_of(
    alloc: Global,
    names: &Names,
    relator: Relator,
) -> Result<Option<TypeFault>, AllocError> {
    let dependency = precondition(alloc, relator)?;
    Ok(judged(alloc, names, &dependency))
}

fn number(millionths: i64) -> Term {
    Term::Number(NumberLeaf {
        number: Dec { millionths },
        start: 0,
        end: 1,
    })
}

fn is_refused(alloc: Global, names: &Names) -> Result<bool, AllocError> {
    let fault = fault_of(alloc, names, Relator::Less)?;
    Ok(
        fault
            == Some(TypeFault::Bad {
                kind: TypeFaultKind::WrongKind,
            }),
    )
}

fn is_typed(alloc: Global, names: &Names) -> Result<bool, AllocError> {
    let fault = fault_of(alloc, names, Relator::Equal)?;
    Ok(fault.is_none() && bounded(alloc, names, &number(2_000_000)) == Some(2_000_000))
}

fn is_own(alloc: Global, names: &Names) -> Result<bool, AllocError> {
    let operand = operand(alloc)?;
    Ok(instance(alloc, names, &number(2_000_000), &operand) == Some(Instance::Own))
}

// Whether the quantity 2 of a line, typed, is that tree, a number, and knows what `A` means there: no set.
fn tells_its_parts(alloc: Global, names: &Names) -> Result<bool, AllocError> {
    let operand = operand(alloc)?;
    let quantity = number(2_000_000);
    match type_term(alloc, names, &quantity, &AT_LINE) {
        Ok(typed) => Ok(
            matches!(typed.tree(), Tree::Term(_))
                && typed.sort_of(&quantity) == Some(Sort::Numbers)
                && typed.meaning(&operand) == Meaning::Characteristic(0)
                && !typed.is_set(&operand),
        ),
        Err(_) => Ok(false),
    }
}

#[test]
fn what_is_typed_tells_its_parts(rt: HostRuntime) -> Result<(), Fail> {
    let model = model(rt.alloc())?;
    let names = Names::new(rt.alloc(), &model)?;
    assert!(rt; tells_its_parts(rt.alloc(), &names)?);
    Ok(())
}

#[test]
fn a_text_is_not_ordered(rt: HostRuntime) -> Result<(), Fail> {
    let model = model(rt.alloc())?;
    let names = Names::new(rt.alloc(), &model)?;
    assert!(rt; is_refused(rt.alloc(), &names)?);
    assert!(rt; is_typed(rt.alloc(), &names)?);
    assert!(rt; is_own(rt.alloc(), &names)?);
    Ok(())
}
