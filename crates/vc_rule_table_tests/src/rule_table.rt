//! A table of two columns and three rows, where its first column's variable has a text.

ghost use Rattle.std.specs.Prelude.{◌≡◌, ◌^◌, ◌<◌, true, false, [], ◌∷◌, IfOk};
ghost use Rattle.vc_value.specs.declared.table_header.Domain.TheVariants.{Texts};
ghost use Rattle.vc_plan.specs.Domains.{atom_count};

use std::alloc::Global;
use std::process::Abort;
use std::test::Fail;
use vc_plan::{Atom, Binding, Kind, Operand, Plan, Rule, Table, Var, View};
use vc_rule_table_saying::say_table;
use vc_rule_yield::{Scratch, Yield};
use vc_value::{Domain, Listed, Value, Word};

// The variable has this text, no other variable has a value, and no grain is out.
#[derive(Drop)]
struct OneText {
    var: u32,
    text: u32,
}

impl View for OneText {
    ghost use Rattle.std.specs.Prelude.{true, false, ◌==◌, if◌then◌else◌, None, Some};
    ghost use Rattle.vc_value.specs.declared.value.Value.TheVariants.{Text};

    ghost seen = { λ s. record {
      here = λ i. true;
      out = λ v g. false;
      value = λ v. if v == s.var then Some (Text s.text)
          else None;
    } };

    fn here(&self, _slot: u32) -> bool {
        true
    }

    fn out(&self, _var: u32, _grain: u32) -> bool {
        false
    }

    fn value(&self, var: u32) -> Option<Value> {
        if var == self.var {
            Some(Value::Text(self.text))
        } else {
            None
        }
    }
}

// The variable has this text, no other variable has a value, and one's first grain is out.
#[derive(Drop)]
struct TextAndOut {
    var: u32,
    text: u32,
    without: u32,
}

impl View for TextAndOut {
    ghost use Rattle.std.specs.Prelude.{true, ◌&&◌, ◌==◌, if◌then◌else◌, None, Some};
    ghost use Rattle.vc_value.specs.declared.value.Value.TheVariants.{Text};

    ghost seen = { λ s. record {
      here = λ i. true;
      out = λ v g. (v == s.without) && (g == 0);
      value = λ v. if v == s.var then Some (Text s.text)
          else None;
    } };

    fn here(&self, _slot: u32) -> bool {
        true
    }

    fn out(&self, var: u32, grain: u32) -> bool {
        var == self.without && grain == 0
    }

    fn value(&self, var: u32) -> Option<Value> {
        if var == self.var {
            Some(Value::Text(self.text))
        } else {
            None
        }
    }
}

fn domains<R: Abort>(rt: &R, alloc: Global) -> Listed<Domain>
    ensures { result ≡ Texts (0 ∷ 1 ∷ 2 ∷ []) ∷ [] }
{
    let mut texts = Listed::new(alloc);
    texts.push(0).expect(rt, "memory");
    texts.push(1).expect(rt, "memory");
    texts.push(2).expect(rt, "memory");
    let mut domains = Listed::new(alloc);
    domains.push(Domain::Texts(texts)).expect(rt, "memory");
    domains
}

// Variable 1 is restrictable, variables 0 and 2 aren't.
fn variables<R: Abort>(rt: &R, alloc: Global) -> Listed<Var>
    ensures { result ≡ record { slot = 0; characteristic = 0; domain = 0; restrictable = false }
        ∷ (record { slot = 0; characteristic = 1; domain = 0; restrictable = true }
        ∷ (record { slot = 0; characteristic = 2; domain = 0; restrictable = false } ∷ [])) }
{
    let mut vars = Listed::new(alloc);
    vars.push(Var {
        slot: 0,
        characteristic: 0,
        domain: 0,
        restrictable: false,
    })
    .expect(rt, "memory");
    vars.push(Var {
        slot: 0,
        characteristic: 1,
        domain: 0,
        restrictable: true,
    })
    .expect(rt, "memory");
    vars.push(Var {
        slot: 0,
        characteristic: 2,
        domain: 0,
        restrictable: false,
    })
    .expect(rt, "memory");
    vars
}

fn row<R: Abort>(rt: &R, alloc: Global, first: u32, second: u32) -> Listed<Value> {
    let mut row = Listed::new(alloc);
    row.push(Value::Text(first)).expect(rt, "memory");
    row.push(Value::Text(second)).expect(rt, "memory");
    row
}

// The rows are 0 with 0, and 1 with 1 and with 2.
fn tables<R: Abort>(rt: &R, alloc: Global) -> Listed<Table> {
    let mut rows = Listed::new(alloc);
    rows.push(row(rt, alloc, 0, 0)).expect(rt, "memory");
    rows.push(row(rt, alloc, 1, 1)).expect(rt, "memory");
    rows.push(row(rt, alloc, 1, 2)).expect(rt, "memory");
    let mut tables = Listed::new(alloc);
    tables
        .push(Table {
            name: Word::from_bytes(alloc, b"PAIRS").expect(rt, "memory"),
            columns: Listed::new(alloc),
            rows,
        })
        .expect(rt, "memory");
    tables
}

fn pairs<R: Abort>(rt: &R, alloc: Global) -> Plan
    ensures { atom_count result < 2 ^ 32 }
{
    Plan {
        name: Word::from_bytes(alloc, b"LAMP").expect(rt, "memory"),
        version: 1,
        texts: Listed::new(alloc),
        dependencies: Listed::new(alloc),
        characteristics: Listed::new(alloc),
        objects: Listed::new(alloc),
        domains: domains(rt, alloc),
        tables: tables(rt, alloc),
        slots: Listed::new(alloc),
        vars: variables(rt, alloc),
        sets: Listed::new(alloc),
        conditions: Listed::new(alloc),
        terms: Listed::new(alloc),
        rules: Listed::new(alloc),
        procedures: Listed::new(alloc),
        lines: Listed::new(alloc),
        operations: Listed::new(alloc),
        guards: Listed::new(alloc),
        requirements: Listed::new(alloc),
    }
}

fn rule_for<R: Abort>(rt: &R, alloc: Global, var: u32) -> Rule {
    let mut inferred = Listed::new(alloc);
    inferred.push(var).expect(rt, "memory");
    Rule {
        dependency: Some(0),
        number: 1,
        slots: Listed::new(alloc),
        condition: 0,
        inferred,
        kind: Kind::Never,
    }
}

fn first_is(text: u32) -> OneText {
    OneText { var: 0, text }
}

// What is said where the columns are given these variables.
fn say(plan: &Plan, rule: &Rule, view: &OneText, first: u32, second: u32, out: &mut Yield)
    requires { atom_count plan.now < 2 ^ 32 }
{
    let columns = [
        Binding {
            column: 0,
            operand: Operand::Variable(first),
        },
        Binding {
            column: 1,
            operand: Operand::Variable(second),
        },
    ];
    out.clear();
    say_table(plan, view, rule, 0, &columns, out);
}

// Whether this alone is said, from these premises.
fn says(out: &Yield, atom: Atom, premises: &[Atom]) -> bool {
    out.count() == 1 && out.atom(0) == atom && out.premises(0) == premises
}

fn says_nothing(out: &Yield) -> bool {
    out.count() == 0 && out.clash().is_none()
}

fn says_two(out: &Yield, first: Atom, second: Atom, premises: &[Atom]) -> bool {
    out.count() == 2 && out.atom(0) == first && out.atom(1) == second && out.premises(1) == premises
}

fn excludes_grains(plan: &Plan, rule: &Rule, out: &mut Yield) -> bool
    requires { atom_count plan.now < 2 ^ 32 }
{
    say(plan, rule, &first_is(1), 0, 1, out);
    let one = says(out, Atom::Out(1, 0), &[Atom::Is(0, Value::Text(1))]);
    say(plan, rule, &first_is(0), 0, 1, out);
    one && says_two(
        out,
        Atom::Out(1, 1),
        Atom::Out(1, 2),
        &[Atom::Is(0, Value::Text(0))],
    )
}

fn agrees_on_a_cell(plan: &Plan, rule: &Rule, out: &mut Yield) -> bool
    requires { atom_count plan.now < 2 ^ 32 }
{
    say(plan, rule, &first_is(0), 0, 2, out);
    let one = says(
        out,
        Atom::Is(2, Value::Text(0)),
        &[Atom::Is(0, Value::Text(0))],
    );
    say(plan, rule, &first_is(1), 0, 2, out);
    one && says_nothing(out)
}

fn clashes_without_a_row(plan: &Plan, rule: &Rule, out: &mut Yield) -> bool
    requires { atom_count plan.now < 2 ^ 32 }
{
    say(plan, rule, &first_is(2), 0, 1, out);
    out.clash() == Some(&[Atom::Is(0, Value::Text(2))])
}

// Of the rows the last has no grain in both columns, whatever the variable's value.
fn has_a_grain_by_all_its_columns(plan: &Plan, rule: &Rule, out: &mut Yield) -> bool
    requires { atom_count plan.now < 2 ^ 32 }
{
    say(plan, rule, &first_is(1), 1, 1, out);
    let unknown = says(out, Atom::Out(1, 2), &[]);
    say(plan, rule, &OneText { var: 1, text: 1 }, 1, 1, out);
    unknown && says(out, Atom::Out(1, 2), &[])
}

#[test]
fn says_by_rows(rt: HostRuntime) -> Result<(), Fail> {
    let plan = pairs(&rt, rt.alloc());
    let mut out = Yield::new(rt.alloc(), 9, 9, 9)?;
    let first = rule_for(&rt, rt.alloc(), 1);
    let second = rule_for(&rt, rt.alloc(), 2);
    let excluded = excludes_grains(&plan, &first, &mut out);
    let agreed = agrees_on_a_cell(&plan, &second, &mut out);
    let clashed = clashes_without_a_row(&plan, &first, &mut out);
    let by_all = has_a_grain_by_all_its_columns(&plan, &first, &mut out);
    drop(second);
    drop(first);
    drop(out);
    drop(plan);
    assert!(rt; excluded && agreed);
    assert!(rt; clashed && by_all);
    Ok(())
}

// The scratch was written to where no row was possible.
fn says_it_again(plan: &Plan, rule: &Rule, out: &mut Yield) -> bool
    requires { atom_count plan.now < 2 ^ 32 }
{
    say(plan, rule, &first_is(2), 0, 1, out);
    say(plan, rule, &first_is(1), 0, 1, out);
    says(out, Atom::Out(1, 0), &[Atom::Is(0, Value::Text(1))])
}

// Room for notes of all three rows, and of one.
#[test]
fn says_the_same_from_scratch(rt: HostRuntime) -> Result<(), Fail> {
    let plan = pairs(&rt, rt.alloc());
    let mut out = Yield::new(rt.alloc(), 9, 9, 9)?;
    let rule = rule_for(&rt, rt.alloc(), 1);
    out.put_scratch(Scratch::new(rt.alloc(), 3, 3).expect(&rt, "memory"));
    let whole = says_it_again(&plan, &rule, &mut out);
    out.put_scratch(Scratch::new(rt.alloc(), 1, 3).expect(&rt, "memory"));
    let short = says_it_again(&plan, &rule, &mut out);
    drop(rule);
    drop(out);
    drop(plan);
    assert!(rt; whole && short);
    Ok(())
}

// The rule infers variable 2, variable 0, and variable 2 again.
fn rule_for_two<R: Abort>(rt: &R, alloc: Global) -> Rule {
    let mut inferred = Listed::new(alloc);
    inferred.push(2).expect(rt, "memory");
    inferred.push(0).expect(rt, "memory");
    inferred.push(2).expect(rt, "memory");
    Rule {
        dependency: Some(0),
        number: 1,
        slots: Listed::new(alloc),
        condition: 0,
        inferred,
        kind: Kind::Never,
    }
}

// Whether this is said at the place, from these premises.
fn says_at(out: &Yield, place: usize, atom: Atom, premises: &[Atom]) -> bool {
    place < out.count() && out.atom(place) == atom && out.premises(place) == premises
}

// The first row fails first at variable 0's column, and then, as the last does, at variable 1's. So what follows for
// variable 2 is from both, and what follows for variable 0 from variable 1 alone.
fn says_two_from_their_own(out: &Yield) -> bool {
    let known = [Atom::Is(1, Value::Text(1))];
    let both = [Atom::Out(0, 0), Atom::Is(1, Value::Text(1))];
    out.count() == 3
        && says_at(out, 0, Atom::Is(2, Value::Text(1)), &both)
        && says_at(out, 1, Atom::Is(0, Value::Text(1)), &known)
        && says_at(out, 2, Atom::Is(2, Value::Text(1)), &both)
}

fn cites_by_variable(plan: &Plan, rule: &Rule, out: &mut Yield) -> bool
    requires { atom_count plan.now < 2 ^ 32 }
{
    let columns = [
        Binding {
            column: 1,
            operand: Operand::Variable(0),
        },
        Binding {
            column: 1,
            operand: Operand::Variable(1),
        },
        Binding {
            column: 0,
            operand: Operand::Variable(2),
        },
    ];
    let view = TextAndOut {
        var: 1,
        text: 1,
        without: 0,
    };
    out.clear();
    say_table(plan, &view, rule, 0, &columns, out);
    says_two_from_their_own(out)
}

// Without notes, and with room for more notes than there are rows.
#[test]
fn cites_once_where_no_row_fails_first(rt: HostRuntime) -> Result<(), Fail> {
    let plan = pairs(&rt, rt.alloc());
    let mut out = Yield::new(rt.alloc(), 9, 9, 9)?;
    let rule = rule_for_two(&rt, rt.alloc());
    let plain = cites_by_variable(&plan, &rule, &mut out);
    out.put_scratch(Scratch::new(rt.alloc(), 5, 3).expect(&rt, "memory"));
    let noted = cites_by_variable(&plan, &rule, &mut out);
    drop(rule);
    drop(out);
    drop(plan);
    assert!(rt; plain && noted);
    Ok(())
}
