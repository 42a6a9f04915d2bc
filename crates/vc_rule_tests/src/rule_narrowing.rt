//! What narrowing rules say of two variables of three texts, of which the second is restrictable.

ghost use Rattle.std.specs.Prelude.{◌≡◌, true, false, [], ◌∷◌, length};
ghost use Rattle.vc_value.specs.declared.table_header.Domain.TheVariants.{Texts};
ghost use Rattle.vc_value.specs.declared.value.Value.TheVariants.{Text};
ghost use Rattle.vc_plan.specs.declared.terms.Term.TheVariants.{Literal, Read};
ghost use Rattle.vc_plan_values.specs.Computing.{TermsFit};
ghost use Rattle.vc_rule_grains.specs.Finding.{GrainsFit};

use std::alloc::Global;
use std::process::Abort;
use std::test::Fail;
use vc_plan::{Atom, Kind, Piece, Plan, Relation, Restriction, Rule, Term, Var, View};
use vc_rule_grains::{say_among, say_last};
use vc_rule_sides::{say_compare, say_equate};
use vc_rule_yield::Yield;
use vc_value::{Domain, Listed, Value, Word};

// Slot 0 is here, the first grains of each variable are out, and the first variable has the third text, if it has one.
#[derive(Drop)]
struct Facts {
    outs: u32,
    is_known: bool,
}

impl View for Facts {
    ghost use Rattle.std.specs.Prelude.{nat_lt, ◌==◌, ◌&&◌, if◌then◌else◌, None, Some};
    ghost use Rattle.vc_value.specs.declared.value.Value.TheVariants.{Text};

    ghost seen = { λ s. record {
      here = λ i. i == 0;
      out = λ v g. nat_lt g s.outs;
      value = λ v. if s.is_known && (v == 0) then Some (Text 2) else None;
    } };

    fn here(&self, slot: u32) -> bool {
        slot == 0
    }

    fn out(&self, _var: u32, grain: u32) -> bool {
        grain < self.outs
    }

    fn value(&self, var: u32) -> Option<Value> {
        if self.is_known && var == 0 {
            Some(Value::Text(2))
        } else {
            None
        }
    }
}

// So many of the first grains are out, and no variable has a value.
fn unknown(outs: u32) -> Facts
    ensures { result.is_known ≡ false }
{
    Facts {
        outs,
        is_known: false,
    }
}

fn third_text() -> Facts {
    Facts {
        outs: 0,
        is_known: true,
    }
}

fn texts<R: Abort>(rt: &R, alloc: Global) -> Listed<Word>
    ensures { length result ≡ 3 }
{
    let mut texts = Listed::new(alloc);
    texts
        .push(Word::from_bytes(alloc, b"RED").expect(rt, "memory"))
        .expect(rt, "memory");
    texts
        .push(Word::from_bytes(alloc, b"BLUE").expect(rt, "memory"))
        .expect(rt, "memory");
    texts
        .push(Word::from_bytes(alloc, b"WHITE").expect(rt, "memory"))
        .expect(rt, "memory");
    texts
}

fn domains<R: Abort>(rt: &R, alloc: Global) -> Listed<Domain>
    ensures { result ≡ Texts (0 ∷ (1 ∷ (2 ∷ []))) ∷ [] }
{
    let mut texts = Listed::new(alloc);
    texts.push(0).expect(rt, "memory");
    texts.push(1).expect(rt, "memory");
    texts.push(2).expect(rt, "memory");
    let mut domains = Listed::new(alloc);
    domains.push(Domain::Texts(texts)).expect(rt, "memory");
    domains
}

fn variables<R: Abort>(rt: &R, alloc: Global) -> Listed<Var>
    ensures { result ≡ record { slot = 0; characteristic = 0; domain = 0; restrictable = false }
        ∷ (record { slot = 0; characteristic = 1; domain = 0; restrictable = true } ∷ []) }
{
    let mut vars = Listed::new(alloc);
    vars.push(Var {
        slot: 0,
        characteristic: 0,
        domain: 0,
        restrictable: false,
    })
    .expect(rt, "memory");
    vars.push(Var {
        slot: 0,
        characteristic: 1,
        domain: 0,
        restrictable: true,
    })
    .expect(rt, "memory");
    vars
}

// Both variables, and the second text.
fn terms<R: Abort>(rt: &R, alloc: Global) -> Listed<Term>
    ensures { result ≡ Read 0 ∷ (Read 1 ∷ (Literal (Text 1) ∷ [])) }
{
    let mut terms = Listed::new(alloc);
    terms.push(Term::Read(0)).expect(rt, "memory");
    terms.push(Term::Read(1)).expect(rt, "memory");
    terms
        .push(Term::Literal(Value::Text(1)))
        .expect(rt, "memory");
    terms
}

fn plan_of_two<R: Abort>(rt: &R, alloc: Global) -> Plan
    ensures fit { TermsFit result }
    ensures grains { GrainsFit result }
{
    Plan {
        name: Word::from_bytes(alloc, b"LAMP").expect(rt, "memory"),
        version: 1,
        texts: texts(rt, alloc),
        dependencies: Listed::new(alloc),
        characteristics: Listed::new(alloc),
        objects: Listed::new(alloc),
        domains: domains(rt, alloc),
        tables: Listed::new(alloc),
        slots: Listed::new(alloc),
        vars: variables(rt, alloc),
        sets: Listed::new(alloc),
        conditions: Listed::new(alloc),
        terms: terms(rt, alloc),
        rules: Listed::new(alloc),
        procedures: Listed::new(alloc),
        lines: Listed::new(alloc),
        operations: Listed::new(alloc),
        guards: Listed::new(alloc),
        requirements: Listed::new(alloc),
    }
}

fn rule_for<R: Abort>(rt: &R, alloc: Global, var: u32) -> Rule {
    let mut inferred = Listed::new(alloc);
    inferred.push(var).expect(rt, "memory");
    Rule {
        dependency: Some(0),
        number: 1,
        slots: Listed::new(alloc),
        condition: 0,
        inferred,
        kind: Kind::Never,
    }
}

// The calls by themselves: what they ensure is known to no test.
fn among(
    plan: &Plan,
    view: &Facts,
    rule: &Rule,
    var: u32,
    restriction: &Restriction,
    out: &mut Yield,
)
    requires fit { TermsFit plan.now }
    requires grains { GrainsFit plan.now }
{
    out.clear();
    say_among(plan, view, rule, var, restriction, out);
}

fn last(plan: &Plan, view: &Facts, var: u32, out: &mut Yield)
    requires { GrainsFit plan.now }
{
    out.clear();
    say_last(plan, view, var, out);
}

fn equate(plan: &Plan, view: &Facts, rule: &Rule, left: u32, right: u32, out: &mut Yield)
    requires fit { TermsFit plan.now }
    requires unknown { view.now.is_known ≡ false }
{
    out.clear();
    say_equate(plan, view, rule, left, right, out);
}

fn compare(plan: &Plan, view: &Facts, rule: &Rule, relation: Relation, right: u32, out: &mut Yield)
    requires fit { TermsFit plan.now }
    requires grains { GrainsFit plan.now }
    requires unknown { view.now.is_known ≡ false }
{
    out.clear();
    say_compare(plan, view, rule, relation, 1, right, out);
}

// Whether this alone is said, from these premises.
fn says(out: &Yield, atom: Atom, premises: &[Atom]) -> bool {
    out.count() == 1 && out.atom(0) == atom && out.premises(0) == premises
}

fn says_nothing(out: &Yield) -> bool {
    out.count() == 0 && out.clash().is_none()
}

fn clashes(out: &Yield, premises: &[Atom]) -> bool {
    out.count() == 0 && out.clash() == Some(premises)
}

fn one_of_two<R: Abort>(rt: &R, alloc: Global) -> Restriction {
    let mut pieces = Listed::new(alloc);
    pieces.push(Piece::OneText(0)).expect(rt, "memory");
    pieces.push(Piece::OneText(1)).expect(rt, "memory");
    Restriction::OneOf(pieces)
}

// A restrictable variable loses the grains that aren't allowed, but for those that are out already.
fn narrows(plan: &Plan, rule: &Rule, out: &mut Yield) -> bool
    requires fit { TermsFit plan.now }
    requires grains { GrainsFit plan.now }
{
    let second = Restriction::Against(Relation::Equal, Value::Text(1));
    among(plan, &unknown(1), rule, 1, &second, out);
    drop(second);
    says(out, Atom::Out(1, 2), &[])
}

// One that isn't has the last value that is left and allowed, and none where two are.
fn gives_what_is_left(plan: &Plan, rule: &Rule, out: &mut Yield) -> bool
    requires fit { TermsFit plan.now }
    requires grains { GrainsFit plan.now }
{
    let not_the_third = Restriction::Against(Relation::Unequal, Value::Text(2));
    among(plan, &unknown(1), rule, 0, &not_the_third, out);
    let one = says(out, Atom::Is(0, Value::Text(1)), &[Atom::Out(0, 0)]);
    among(plan, &unknown(0), rule, 0, &not_the_third, out);
    drop(not_the_third);
    one && says_nothing(out)
}

fn clashes_with_the_value(plan: &Plan, rule: &Rule, allowed: &Restriction, out: &mut Yield) -> bool
    requires fit { TermsFit plan.now }
    requires grains { GrainsFit plan.now }
{
    among(plan, &third_text(), rule, 0, allowed, out);
    clashes(out, &[Atom::Is(0, Value::Text(2))])
}

// The last grain that isn't out is the value. That the root is here is never cited.
fn gives_the_last_grain(plan: &Plan, out: &mut Yield) -> bool
    requires { GrainsFit plan.now }
{
    last(plan, &unknown(2), 1, out);
    let premises = [Atom::Out(1, 0), Atom::Out(1, 1)];
    let given = says(out, Atom::Is(1, Value::Text(2)), &premises);
    last(plan, &unknown(1), 1, out);
    given && says_nothing(out)
}

// The first variable is to be the second text.
fn gives_the_other_sides_value(plan: &Plan, rule: &Rule, out: &mut Yield) -> bool
    requires fit { TermsFit plan.now }
{
    equate(plan, &unknown(0), rule, 0, 2, out);
    says(out, Atom::Is(0, Value::Text(1)), &[])
}

// The second variable isn't to be the second text; where the other side has no value nothing follows.
fn leaves_out_the_other_sides_value(plan: &Plan, rule: &Rule, out: &mut Yield) -> bool
    requires fit { TermsFit plan.now }
    requires grains { GrainsFit plan.now }
{
    compare(plan, &unknown(0), rule, Relation::Unequal, 2, out);
    let left_out = says(out, Atom::Out(1, 1), &[]);
    compare(plan, &unknown(0), rule, Relation::Unequal, 0, out);
    left_out && says_nothing(out)
}

#[test]
fn narrows_by_kinds(rt: HostRuntime) -> Result<(), Fail> {
    let plan = plan_of_two(&rt, rt.alloc());
    let mut out = Yield::new(rt.alloc(), 9, 9, 9)?;
    let first = rule_for(&rt, rt.alloc(), 0);
    let second = rule_for(&rt, rt.alloc(), 1);
    let allowed = one_of_two(&rt, rt.alloc());
    let narrowed = narrows(&plan, &second, &mut out);
    let given = gives_what_is_left(&plan, &first, &mut out);
    let clashed = clashes_with_the_value(&plan, &second, &allowed, &mut out);
    let last = gives_the_last_grain(&plan, &mut out);
    let equal = gives_the_other_sides_value(&plan, &first, &mut out);
    let unequal = leaves_out_the_other_sides_value(&plan, &second, &mut out);
    drop(allowed);
    drop(second);
    drop(first);
    drop(out);
    drop(plan);
    assert!(rt; narrowed && given && clashed);
    assert!(rt; last && equal && unequal);
    Ok(())
}
