//! The cells of two variables of two texts, one narrowed by a table, the other by its last grain.

ghost use Rattle.std.specs.Prelude.{◌≡◌, ◌^◌, ◌<◌, false, true, [], ◌∷◌, IfOk};
ghost use Rattle.vc_value.specs.declared.table_header.Domain.TheVariants.{Texts};
ghost use Rattle.vc_plan.specs.Domains.{atom_count};

use std::alloc::Global;
use std::process::Abort;
use std::test::Fail;
use vc_net_bounds::{Counted, bounds_of};
use vc_plan::{Binding, Condition, Kind, Operand, Plan, Rule, Slot, Table, Var};
use vc_value::{Domain, Listed, Value, Word};

fn domains<R: Abort>(rt: &R, alloc: Global) -> Listed<Domain>
    ensures { result ≡ Texts (0 ∷ 1 ∷ []) ∷ [] }
{
    let mut texts = Listed::new(alloc);
    texts.push(0).expect(rt, "memory");
    texts.push(1).expect(rt, "memory");
    let mut domains = Listed::new(alloc);
    domains.push(Domain::Texts(texts)).expect(rt, "memory");
    domains
}

fn variables<R: Abort>(rt: &R, alloc: Global) -> Listed<Var>
    ensures { result ≡ record { slot = 0; characteristic = 0; domain = 0; restrictable = true }
        ∷ record { slot = 0; characteristic = 1; domain = 0; restrictable = false } ∷ [] }
{
    let mut vars = Listed::new(alloc);
    vars.push(Var {
        slot: 0,
        characteristic: 0,
        domain: 0,
        restrictable: true,
    })
    .expect(rt, "memory");
    vars.push(Var {
        slot: 0,
        characteristic: 1,
        domain: 0,
        restrictable: false,
    })
    .expect(rt, "memory");
    vars
}

fn row<R: Abort>(rt: &R, alloc: Global, text: u32) -> Listed<Value> {
    let mut row = Listed::new(alloc);
    row.push(Value::Text(text)).expect(rt, "memory");
    row
}

fn tables<R: Abort>(rt: &R, alloc: Global) -> Listed<Table> {
    let mut rows = Listed::new(alloc);
    rows.push(row(rt, alloc, 0)).expect(rt, "memory");
    rows.push(row(rt, alloc, 1)).expect(rt, "memory");
    rows.push(row(rt, alloc, 0)).expect(rt, "memory");
    let mut tables = Listed::new(alloc);
    tables
        .push(Table {
            name: Word::from_bytes(alloc, b"T").expect(rt, "memory"),
            columns: Listed::new(alloc),
            rows,
        })
        .expect(rt, "memory");
    tables
}

fn one<R: Abort>(rt: &R, alloc: Global) -> Listed<u32> {
    let mut list = Listed::new(alloc);
    list.push(0).expect(rt, "memory");
    list
}

fn rules<R: Abort>(rt: &R, alloc: Global) -> Listed<Rule> {
    let mut columns = Listed::new(alloc);
    columns
        .push(Binding {
            column: 0,
            operand: Operand::Variable(0),
        })
        .expect(rt, "memory");
    let mut rules = Listed::new(alloc);
    rules
        .push(Rule {
            dependency: Some(0),
            number: 1,
            slots: one(rt, alloc),
            condition: 0,
            inferred: one(rt, alloc),
            kind: Kind::ByTable { table: 0, columns },
        })
        .expect(rt, "memory");
    rules
        .push(Rule {
            dependency: None,
            number: 0,
            slots: Listed::new(alloc),
            condition: 0,
            inferred: Listed::new(alloc),
            kind: Kind::Last(1),
        })
        .expect(rt, "memory");
    rules
}

fn conditions<R: Abort>(rt: &R, alloc: Global) -> Listed<Condition> {
    let mut conditions = Listed::new(alloc);
    conditions
        .push(Condition::Specified(1))
        .expect(rt, "memory");
    conditions
}

fn plan_of_two<R: Abort>(rt: &R, alloc: Global) -> Plan
    ensures { atom_count result < 2 ^ 32 }
{
    let mut slots = Listed::new(alloc);
    slots
        .push(Slot {
            parent: None,
            depth: 0,
            object: 0,
            line: 0,
        })
        .expect(rt, "memory");
    Plan {
        name: Word::from_bytes(alloc, b"LAMP").expect(rt, "memory"),
        version: 1,
        texts: Listed::new(alloc),
        dependencies: Listed::new(alloc),
        characteristics: Listed::new(alloc),
        objects: Listed::new(alloc),
        domains: domains(rt, alloc),
        tables: tables(rt, alloc),
        slots,
        vars: variables(rt, alloc),
        sets: Listed::new(alloc),
        conditions: conditions(rt, alloc),
        terms: Listed::new(alloc),
        rules: rules(rt, alloc),
        procedures: Listed::new(alloc),
        lines: Listed::new(alloc),
        operations: Listed::new(alloc),
        guards: Listed::new(alloc),
        requirements: Listed::new(alloc),
    }
}

fn counted<R: Abort>(rt: &R, alloc: Global) -> Counted {
    let plan = plan_of_two(rt, alloc);
    let found = bounds_of(alloc, &plan);
    drop(plan);
    found.expect(rt, "memory")
}

fn cells(found: &Counted, place: usize) -> Option<u32> {
    match found {
        Counted::Within(bounds) => bounds.places.as_slice().get(place).copied(),
        Counted::TooMany => None,
    }
}

fn clash(found: &Counted) -> u32 {
    match found {
        Counted::Within(bounds) => bounds.clash,
        Counted::TooMany => 0,
    }
}

#[test]
fn counts_rows_and_grains(rt: HostRuntime) -> Result<(), Fail> {
    let found = counted(&rt, rt.alloc());
    assert_eq!(rt; cells(&found, 0), Some(0));
    assert_eq!(rt; cells(&found, 1), Some(1));
    assert_eq!(rt; cells(&found, 2), Some(4));
    assert_eq!(rt; cells(&found, 3), Some(3));
    assert_eq!(rt; cells(&found, 4), Some(2));
    assert_eq!(rt; cells(&found, 5), Some(0));
    assert_eq!(rt; cells(&found, 6), Some(0));
    assert_eq!(rt; cells(&found, 7), None);
    assert_eq!(rt; clash(&found), 5);
    Ok(())
}
