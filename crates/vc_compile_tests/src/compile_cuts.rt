//! A constraint on two characteristics of whole numbers, with a table of three rows.

use std::alloc::Global;
use std::process::Abort;
use std::test::Fail;
use vc_compile_cuts::domains_of;
use vc_model_parts::parts::{
    BillItem, Characteristic, Class, Model, NamedDependency, Net, NumberValue, Object, Operation,
    Table, TableColumn, Values,
};
use vc_plan::Slot;
use vc_syntax_tree::{
    Alias, Apart, Binding, Condition, Constraint, Demand, Dependency, NameLeaf, NumberLeaf,
    Object as Declared, ObjectKind, Operand, Relation, Relator, Restriction, ShortWord, TableCall,
    Term,
};
use vc_table::{Row, VariantTable};
use vc_types_names::Names;
use vc_value::{Dec, Domain, Grain, GrainList, Listed, Value, Word};

fn word<R: Abort>(rt: &R, alloc: Global, text: &str) -> Word {
    Word::from_bytes(alloc, text.as_bytes()).expect(rt, "memory")
}

fn leaf<R: Abort>(rt: &R, alloc: Global, text: &str) -> NameLeaf {
    NameLeaf {
        name: ShortWord::from_bytes(alloc, text.as_bytes()).expect(rt, "memory"),
        start: 0,
        end: 1,
    }
}

fn one<R: Abort>(rt: &R, alloc: Global, number: u32) -> Listed<u32> {
    let mut numbers = Listed::new(alloc);
    numbers.push(number).expect(rt, "memory");
    numbers
}

fn millionths(millionths: i64) -> Dec {
    Dec { millionths }
}

fn grain(low: i64, high: i64) -> Grain {
    Grain {
        low: millionths(low),
        high: millionths(high),
    }
}

// ?X.C
fn member<R: Abort>(rt: &R, alloc: Global, characteristic: &str) -> Box<Term> {
    let variable = Apart::new(alloc, leaf(rt, alloc, "X")).expect(rt, "memory");
    let operand = Operand::Member(variable, leaf(rt, alloc, characteristic));
    Box::new(alloc, Term::Operand(operand)).expect(rt, "memory")
}

fn number<R: Abort>(rt: &R, alloc: Global, number: i64) -> Box<Term> {
    let leaf = NumberLeaf {
        number: millionths(number),
        start: 0,
        end: 1,
    };
    Box::new(alloc, Term::Number(leaf)).expect(rt, "memory")
}

// ?X.A, related to a number.
fn relation<R: Abort>(rt: &R, alloc: Global, relator: Relator, to: i64) -> Relation {
    Relation::Compared(member(rt, alloc, "A"), relator, number(rt, alloc, to))
}

// TABLE T ( B = ?X.B )
fn call<R: Abort>(rt: &R, alloc: Global) -> TableCall {
    let mut bindings = Listed::new(alloc);
    bindings
        .push(Binding {
            column: leaf(rt, alloc, "B"),
            value: member(rt, alloc, "B"),
        })
        .expect(rt, "memory");
    TableCall {
        table: leaf(rt, alloc, "T"),
        bindings,
    }
}

fn restriction(demand: Demand) -> Restriction {
    Restriction {
        demand,
        condition: None,
    }
}

// CONDITION: ?X.A > 7. RESTRICTIONS: ?X.A = 2.5 , TABLE T ( B = ?X.B ).
fn constraint<R: Abort>(rt: &R, alloc: Global) -> Dependency {
    let aliases: Listed<Alias> = Listed::new(alloc);
    let inferences: Listed<Operand> = Listed::new(alloc);
    let mut objects = Listed::new(alloc);
    objects
        .push(Declared {
            variable: leaf(rt, alloc, "X"),
            kind: ObjectKind::Class(leaf(rt, alloc, "K")),
            aliases,
        })
        .expect(rt, "memory");
    let mut restrictions = Listed::new(alloc);
    let equation = relation(rt, alloc, Relator::Equal, 2_500_000);
    restrictions
        .push(restriction(Demand::Relation(equation)))
        .expect(rt, "memory");
    let called = Apart::new(alloc, call(rt, alloc)).expect(rt, "memory");
    restrictions
        .push(restriction(Demand::Table(called)))
        .expect(rt, "memory");
    let condition = Condition::Relation(relation(rt, alloc, Relator::Greater, 7_000_000));
    Dependency::Constraint(Constraint {
        objects,
        condition: Some(Box::new(alloc, condition).expect(rt, "memory")),
        restrictions,
        inferences,
    })
}

// Whole numbers from 0 to 10.
fn characteristic<R: Abort>(rt: &R, alloc: Global, name: &str) -> Characteristic {
    let mut values = Listed::new(alloc);
    values
        .push(NumberValue {
            low: millionths(0),
            high: millionths(10_000_000),
            uses: Listed::new(alloc),
        })
        .expect(rt, "memory");
    Characteristic {
        name: word(rt, alloc, name),
        restrictable: true,
        required: false,
        uses: Listed::new(alloc),
        values: Values::Numbers {
            decimals: 0,
            unit: None,
            values,
        },
    }
}

fn objects<R: Abort>(rt: &R, alloc: Global) -> Listed<Object> {
    let bill: Listed<BillItem> = Listed::new(alloc);
    let operations: Listed<Operation> = Listed::new(alloc);
    let mut objects = Listed::new(alloc);
    objects
        .push(Object {
            material: word(rt, alloc, "M"),
            class: 0,
            nets: one(rt, alloc, 0),
            procedures: Listed::new(alloc),
            bill,
            operations,
        })
        .expect(rt, "memory");
    objects
}

fn table<R: Abort>(rt: &R, alloc: Global) -> Table {
    let mut columns = Listed::new(alloc);
    for characteristic in [0, 1].as_slice() {
        columns
            .push(TableColumn {
                characteristic: *characteristic,
                key: false,
            })
            .expect(rt, "memory");
    }
    Table {
        name: word(rt, alloc, "T"),
        file: word(rt, alloc, "t.csv"),
        columns,
    }
}

fn model<R: Abort>(rt: &R, alloc: Global) -> Model {
    let mut characteristics = Listed::new(alloc);
    characteristics
        .push(characteristic(rt, alloc, "A"))
        .expect(rt, "memory");
    characteristics
        .push(characteristic(rt, alloc, "B"))
        .expect(rt, "memory");
    let mut members = Listed::new(alloc);
    members.push(0).expect(rt, "memory");
    members.push(1).expect(rt, "memory");
    let mut classes = Listed::new(alloc);
    classes
        .push(Class {
            name: word(rt, alloc, "K"),
            members,
        })
        .expect(rt, "memory");
    let mut tables = Listed::new(alloc);
    tables.push(table(rt, alloc)).expect(rt, "memory");
    let mut dependencies = Listed::new(alloc);
    dependencies
        .push(NamedDependency {
            name: word(rt, alloc, "D"),
            tree: constraint(rt, alloc),
            line: 1,
        })
        .expect(rt, "memory");
    let mut nets = Listed::new(alloc);
    nets.push(Net {
        name: word(rt, alloc, "N"),
        constraints: one(rt, alloc, 0),
    })
    .expect(rt, "memory");
    Model {
        name: word(rt, alloc, "M"),
        version: 1,
        characteristics,
        texts: Listed::new(alloc),
        classes,
        tables,
        dependencies,
        nets,
        objects: objects(rt, alloc),
        root: 0,
    }
}

// The rows ( 1 , 4 ), ( 2 , 4 ) and ( 3 , 20 ).
fn rows<R: Abort>(rt: &R, alloc: Global) -> VariantTable {
    let mut rows = Listed::new(alloc);
    for row in [[1, 4], [2, 4], [3, 20]].as_slice() {
        let mut cells = Listed::new(alloc);
        cells
            .push(Value::Num(millionths(row[0] * 1_000_000)))
            .expect(rt, "memory");
        cells
            .push(Value::Num(millionths(row[1] * 1_000_000)))
            .expect(rt, "memory");
        rows.push(Row { cells }).expect(rt, "memory");
    }
    VariantTable { rows }
}

const ROOT: Slot = Slot {
    parent: None,
    depth: 0,
    object: 0,
    line: 0,
};

fn all_rows<R: Abort>(rt: &R, alloc: Global) -> Listed<VariantTable> {
    let mut tables = Listed::new(alloc);
    tables.push(rows(rt, alloc)).expect(rt, "memory");
    tables
}

// What is built is dropped on one path alone: each path more is proved anew.
fn domains_by<R: Abort>(rt: &R, alloc: Global, names: &Names<'_>) -> Listed<Domain> {
    let tables = all_rows(rt, alloc);
    let found = domains_of(alloc, names, [ROOT].as_slice(), tables.as_slice());
    drop(tables);
    found.expect(rt, "memory")
}

fn domains_in<R: Abort>(rt: &R, alloc: Global, model: &Model) -> Listed<Domain> {
    let names = Names::new(alloc, model).expect(rt, "memory");
    let found = domains_by(rt, alloc, &names);
    drop(names);
    found
}

// The domains of the model, with the rows of its table.
fn domains<R: Abort>(rt: &R, alloc: Global) -> Listed<Domain> {
    let model = model(rt, alloc);
    let found = domains_in(rt, alloc, &model);
    drop(model);
    found
}

fn are_grains(grains: &GrainList, wanted: &[Grain]) -> bool {
    for n in 0..grains.count() {
        match wanted.get(n as usize) {
            Some(grain) if *grain == grains.grain(n) => {}
            _ => return false,
        }
    }
    grains.count() as usize == wanted.len()
}

fn has_grains(domain: &Domain, wanted: &[Grain]) -> bool {
    match domain {
        Domain::Texts(_) => false,
        Domain::Nums { decimals, grains } => *decimals == 0 && are_grains(grains, wanted),
    }
}

#[test]
fn characteristics_are_cut_at_numbers_and_cells(rt: HostRuntime) -> Result<(), Fail> {
    let domains = domains(&rt, rt.alloc());
    let first = [
        grain(0, 2_000_000),
        grain(3_000_000, 3_000_000),
        grain(4_000_000, 6_000_000),
        grain(7_000_000, 7_000_000),
        grain(8_000_000, 10_000_000),
    ];
    let second = [
        grain(0, 3_000_000),
        grain(4_000_000, 4_000_000),
        grain(5_000_000, 10_000_000),
    ];
    assert!(rt; domains.len() == 2);
    assert!(rt; has_grains(&domains.as_slice()[0], first.as_slice()));
    assert!(rt; has_grains(&domains.as_slice()[1], second.as_slice()));
    Ok(())
}
