//! What procedures write to the one variable of a plan, which has texts 0 and 1. In the stage that they read the root
//! is here, and nothing has a value.

ghost use Rattle.std.specs.Prelude.{◌≡◌, [], ◌∷◌, length, map, IfOk};
ghost use Rattle.vc_value.specs.declared.table_header.Domain.TheVariants.{Texts};
ghost use Rattle.vc_value.specs.declared.value.Value.TheVariants.{Text};
ghost use Rattle.vc_plan.specs.declared.conditions.Condition.TheVariants.{Always};
ghost use Rattle.vc_plan.specs.declared.terms.Term.TheVariants.{Literal};
ghost use Rattle.vc_plan.specs.Entries.{no_entries};
ghost use Rattle.vc_proc_look_ups.specs.LookUps.{AreLookUpsOf};
ghost use Rattle.vc_proc.specs.Stages.{CanRun};

use std::alloc::{AllocError, Global};
use std::test::Fail;
use vc_plan::{
    Action, Condition, FilledColumn, KeyTerm, Mark, Plan, Procedure, Reading, Slot, Statement,
    Table, Term, Trigger, Var, View,
};
use vc_proc::stages::run;
use vc_proc::{Overlay, Written};
use vc_proc_look_ups::LookUps;
use vc_value::{Domain, Listed, Value, Word};

#[derive(Drop)]
struct Root;

impl View for Root {
    ghost use Rattle.std.specs.Prelude.{false, ◌==◌, None};

    ghost seen = { λ s. record { here = λ i. i == 0; out = λ v g. false; value = λ v. None } };

    fn here(&self, slot: u32) -> bool {
        slot == 0
    }

    fn out(&self, _var: u32, _grain: u32) -> bool {
        false
    }

    fn value(&self, _var: u32) -> Option<Value> {
        None
    }
}

impl Reading for Root {
    ghost use Rattle.std.specs.Prelude.{false};

    ghost holdings = { λ s set text. false };

    fn holds(&self, _set: u32, _text: u32) -> bool {
        false
    }
}

fn texts(alloc: Global) -> Result<Listed<Word>, AllocError>
    ensures { IfOk result (λ texts. length texts ≡ 2) }
{
    let mut texts = Listed::new(alloc);
    texts.push(Word::from_bytes(alloc, b"RED")?)?;
    texts.push(Word::from_bytes(alloc, b"BLUE")?)?;
    Ok(texts)
}

fn domains(alloc: Global) -> Result<Listed<Domain>, AllocError>
    ensures { IfOk result (λ domains. domains ≡ Texts (0 ∷ 1 ∷ []) ∷ []) }
{
    let mut texts = Listed::new(alloc);
    texts.push(0)?;
    texts.push(1)?;
    let mut domains = Listed::new(alloc);
    domains.push(Domain::Texts(texts))?;
    Ok(domains)
}

fn slots(alloc: Global) -> Result<Listed<Slot>, AllocError>
    ensures { IfOk result (λ slots. length slots ≡ 1) }
{
    let mut slots = Listed::new(alloc);
    slots.push(Slot {
        parent: None,
        depth: 0,
        object: 0,
        line: 0,
    })?;
    Ok(slots)
}

fn variables(alloc: Global) -> Result<Listed<Var>, AllocError>
    ensures { IfOk result (λ vars. length vars ≡ 1) }
{
    let mut vars = Listed::new(alloc);
    vars.push(Var {
        slot: 0,
        characteristic: 0,
        domain: 0,
        restrictable: false,
    })?;
    Ok(vars)
}

fn terms(alloc: Global) -> Result<Listed<Term>, AllocError>
    ensures { IfOk result (λ terms. terms ≡ Literal (Text 1) ∷ Literal (Text 0) ∷ []) }
{
    let mut terms = Listed::new(alloc);
    terms.push(Term::Literal(Value::Text(1)))?;
    terms.push(Term::Literal(Value::Text(0)))?;
    Ok(terms)
}

// Looks text 0 up, and fills in the cell beside it.
fn looks_up(alloc: Global) -> Result<Statement, AllocError> {
    let mut keys = Listed::new(alloc);
    keys.push(KeyTerm { column: 0, term: 1 })?;
    let mut filled = Listed::new(alloc);
    filled.push(FilledColumn { column: 1, var: 0 })?;
    Ok(Statement {
        action: Action::LookUp {
            table: 0,
            keys,
            filled,
        },
        condition: 0,
    })
}

// The default is text 1, then the value is text 0, then a default of text 0 would go, then the value is looked up.
fn statements(alloc: Global) -> Result<Listed<Statement>, AllocError>
    ensures { IfOk result (λ statements. length statements ≡ 4) }
{
    let mut statements = Listed::new(alloc);
    statements.push(Statement {
        action: Action::SetDefault { var: 0, term: 0 },
        condition: 0,
    })?;
    statements.push(Statement {
        action: Action::Assign { var: 0, term: 1 },
        condition: 0,
    })?;
    statements.push(Statement {
        action: Action::DeleteDefault { var: 0, term: 1 },
        condition: 0,
    })?;
    statements.push(looks_up(alloc)?)?;
    Ok(statements)
}

fn procedures(alloc: Global) -> Result<Listed<Procedure>, AllocError>
    ensures { IfOk result (λ procedures. map (λ procedure. length procedure.statements) procedures ≡ 4 ∷ []) }
{
    let statements = statements(alloc)?;
    let mut procedures = Listed::new(alloc);
    procedures.push(Procedure {
        slot: 0,
        dependency: 0,
        trigger: Trigger::Anyway,
        statements,
    })?;
    Ok(procedures)
}

fn conditions(alloc: Global) -> Result<Listed<Condition>, AllocError>
    ensures { IfOk result (λ conditions. conditions ≡ Always ∷ []) }
{
    let mut conditions = Listed::new(alloc);
    conditions.push(Condition::Always)?;
    Ok(conditions)
}

fn row(alloc: Global, key: u32, cell: u32) -> Result<Listed<Value>, AllocError> {
    let mut row = Listed::new(alloc);
    row.push(Value::Text(key))?;
    row.push(Value::Text(cell))?;
    Ok(row)
}

// The second row and the third have the same key.
fn rows(alloc: Global) -> Result<Listed<Listed<Value>>, AllocError>
    ensures { IfOk result (λ rows. length rows ≡ 3) }
{
    let mut rows = Listed::new(alloc);
    rows.push(row(alloc, 1, 0)?)?;
    rows.push(row(alloc, 0, 1)?)?;
    rows.push(row(alloc, 0, 0)?)?;
    Ok(rows)
}

fn tables(alloc: Global) -> Result<Listed<Table>, AllocError>
    ensures { IfOk result (λ tables. map (λ table. length table.rows) tables ≡ 3 ∷ []) }
{
    let rows = rows(alloc)?;
    let mut tables = Listed::new(alloc);
    tables.push(Table {
        name: Word::from_bytes(alloc, b"SHADES")?,
        columns: Listed::new(alloc),
        rows,
    })?;
    Ok(tables)
}

fn plan_of_one(alloc: Global) -> Result<Plan, AllocError>
    ensures can { IfOk result (λ plan. CanRun plan) }
    ensures rows { IfOk result (λ plan. map (λ table. length table.rows) plan.tables ≡ 3 ∷ []) }
{
    let texts = texts(alloc)?;
    let domains = domains(alloc)?;
    let slots = slots(alloc)?;
    let vars = variables(alloc)?;
    let conditions = conditions(alloc)?;
    let terms = terms(alloc)?;
    let procedures = procedures(alloc)?;
    let tables = tables(alloc)?;
    Ok(Plan {
        name: Word::from_bytes(alloc, b"LAMP")?,
        version: 1,
        texts,
        dependencies: Listed::new(alloc),
        characteristics: Listed::new(alloc),
        objects: Listed::new(alloc),
        domains,
        tables,
        slots,
        vars,
        sets: Listed::new(alloc),
        conditions,
        terms,
        rules: Listed::new(alloc),
        procedures,
        lines: Listed::new(alloc),
        operations: Listed::new(alloc),
        guards: Listed::new(alloc),
        requirements: Listed::new(alloc),
    })
}

fn text_by(text: u32, hard: bool, statement: u32) -> Option<Written> {
    Some(Written {
        mark: Mark::Held(Value::Text(text)),
        hard,
        proc: 0,
        statement,
    })
}

#[tactic(auto, using(crate::proofs::SmallPlans::few_rows))]
fn look_ups_of(alloc: Global, plan: &Plan) -> Result<LookUps, AllocError>
    requires { map (λ table. length table.rows) plan.now.tables ≡ 3 ∷ [] }
    ensures { IfOk result (λ look_ups. AreLookUpsOf plan.now look_ups) }
{
    LookUps::new(alloc, plan)
}

// What stands after stage 1, and after the last, which has no sums.
#[tactic(auto, using(vc_proc::proofs::LyingLemmas::nothing_lies_as))]
fn writes_both(plan: &Plan, look_ups: &LookUps, overlay: &mut Overlay) -> bool
    requires orders { AreLookUpsOf plan.now look_ups.now }
    requires can { CanRun plan.now }
    requires none { overlay.old ≡ no_entries plan.now }
{
    run(plan, look_ups, 1, &Root, &[], overlay);
    let first = overlay.entry(0);
    run(plan, look_ups, 2, &Root, &[], overlay);
    first == text_by(1, true, 3) && overlay.entry(0) == first
}

// Whether what is entered stands until all is taken away.
fn keeps(overlay: &mut Overlay) -> bool {
    overlay.enter(0, text_by(1, false, 2));
    overlay.enter(1, text_by(1, false, 2));
    let kept = overlay.entry(0) == text_by(1, false, 2) && overlay.entry(1) == None;
    overlay.clear();
    kept && overlay.entry(0) == None
}

#[test]
fn writes_what_statements_say(rt: HostRuntime) -> Result<(), Fail> {
    let plan = plan_of_one(rt.alloc())?;
    let mut overlay = Overlay::new(rt.alloc(), &plan)?;
    let look_ups = look_ups_of(rt.alloc(), &plan)?;
    assert!(rt; writes_both(&plan, &look_ups, &mut overlay));
    assert!(rt; keeps(&mut overlay));
    Ok(())
}
