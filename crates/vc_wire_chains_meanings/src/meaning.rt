//! What names and numbers mean in a plan.

ghost use Rattle.std.specs.Prelude.{◌≡◌, ◌<◌, ◌==◌, length, position, slice_get, IfSome};
ghost use Rattle.vc_value.specs.Words.{same_ignoring_case};
ghost use Rattle.vc_plan.specs.LookUps.{action_writes};
ghost use Rattle.vc_plan.specs.Orders.{is_number};
ghost use Rattle.vc_plan.specs.RuleShapes.{is_last_of, is_line_of};
ghost use Rattle.vc_plan_reasons.specs.Fitting.{statement_writes};
ghost use Rattle.vc_plan_reasons.specs.Refuting.{is_restriction};
ghost use Rattle.std.specs.List.{list_any};
ghost use Rattle.vc_wire_chains_meanings.specs.Meant as meant;
ghost use Rattle.vc_wire_chains_meanings.specs.Meant.{HasNumbers};

use vc_plan::{Action, Characteristic, FilledColumn, Kind, Plan, Procedure, Rule, Var, element};
use vc_value::{Word, equals_ignoring_case};

fn characteristic_place(list: &[Characteristic], name: &[u8]) -> Option<usize>
    ensures at { result ≡ position (λ c. same_ignoring_case c.name name.now) list.now }
    ensures within { IfSome result (λ at. at < length list.now) }
{
    list.iter().position(|characteristic| equals_ignoring_case(characteristic.name.bytes(), name))
}

fn characteristic_named(plan: &Plan, name: &[u8]) -> Option<u32>
    requires { HasNumbers plan.now }
    ensures { result ≡ meant.characteristic_named plan.now name.now }
{
    match characteristic_place(plan.characteristics.as_slice(), name) {
        Some(place) => Some(place as u32),
        None => None,
    }
}

fn dependency_place(list: &[Word], name: &[u8]) -> Option<usize>
    ensures at { result ≡ position (λ word. same_ignoring_case word name.now) list.now }
    ensures within { IfSome result (λ at. at < length list.now) }
{
    list.iter()
        .position(|word| equals_ignoring_case(word.bytes(), name))
}

fn dependency_named(plan: &Plan, name: &[u8]) -> Option<u32>
    requires { HasNumbers plan.now }
    ensures { result ≡ meant.dependency_named plan.now name.now }
{
    match dependency_place(plan.dependencies.as_slice(), name) {
        Some(place) => Some(place as u32),
        None => None,
    }
}

fn is_variable(slot: u32, characteristic: u32, x: &Var) -> bool
    ensures { result ≡ meant.is_variable slot characteristic x.now }
{
    x.slot == slot && x.characteristic == characteristic
}

fn variable_place(list: &[Var], slot: u32, characteristic: u32) -> Option<usize>
    ensures at { result ≡ position (meant.is_variable slot characteristic) list.now }
    ensures within { IfSome result (λ at. at < length list.now) }
{
    list.iter()
        .position(|x| is_variable(slot, characteristic, x))
}

fn variable_of(plan: &Plan, slot: u32, characteristic: u32) -> Option<u32>
    requires { HasNumbers plan.now }
    ensures { result ≡ meant.variable_of plan.now slot characteristic }
{
    match variable_place(plan.vars.as_slice(), slot, characteristic) {
        Some(place) => Some(place as u32),
        None => None,
    }
}

/// The variable of the slot whose characteristic has this name, in letters of either case. A set is none.
pub fn variable_named(plan: &Plan, slot: u32, name: &[u8]) -> Option<u32>
    requires { HasNumbers plan.now }
    ensures { result ≡ meant.variable_named plan.now slot name.now }
{
    let characteristic = characteristic_named(plan, name)?;
    variable_of(plan, slot, characteristic)
}

fn same_slots(first: &[u32], second: &[u32]) -> bool
    ensures { result ≡ meant.same_slots first.now second.now }
{
    let mut left = first;
    let mut right = second;
    while let [slot, more @ ..] = left {
        match right {
            [other, rest @ ..] if *slot == *other => {
                left = more;
                right = rest;
            }
            _ => return false,
        }
    }
    right.is_empty()
}

fn is_number(number: u32, dependency: Option<u32>) -> bool
    ensures { result ≡ is_number number dependency }
{
    match dependency {
        Some(other) => number == other,
        None => false,
    }
}

fn is_restriction(kind: &Kind) -> bool
    ensures { result ≡ is_restriction kind.now }
{
    match kind {
        Kind::Last(_) | Kind::Line(_) => false,
        _ => true,
    }
}

fn is_called_so(dependency: u32, number: u32, rule: &Rule) -> bool
    ensures { result ≡ meant.is_called_so dependency number rule.now }
{
    is_number(dependency, rule.dependency) && rule.number == number
}

fn stands_at(slots: &[u32], rule: &Rule) -> bool
    ensures { result ≡ meant.stands_at slots.now rule.now }
{
    is_restriction(&rule.kind) && same_slots(rule.slots.as_slice(), slots)
}

fn is_restriction_of(dependency: u32, number: u32, slots: &[u32], rule: &Rule) -> bool
    ensures { result ≡ meant.is_restriction_of dependency number slots.now rule.now }
{
    is_called_so(dependency, number, rule) && stands_at(slots, rule)
}

fn constraint_place(list: &[Rule], dependency: u32, number: u32, slots: &[u32]) -> Option<usize>
    ensures at { result ≡ position (meant.is_restriction_of dependency number slots.now) list.now }
    ensures within { IfSome result (λ at. at < length list.now) }
{
    list.iter()
        .position(|rule| is_restriction_of(dependency, number, slots, rule))
}

fn constraint_of(plan: &Plan, dependency: u32, number: u32, slots: &[u32]) -> Option<u32>
    requires { HasNumbers plan.now }
    ensures { result ≡ meant.constraint_of plan.now dependency number slots.now }
{
    match constraint_place(plan.rules.as_slice(), dependency, number, slots) {
        Some(place) => Some(place as u32),
        None => None,
    }
}

/// The rule of the constraint's restriction of this number, from 1, at these slots.
pub fn constraint_named(plan: &Plan, name: &[u8], number: u32, slots: &[u32]) -> Option<u32>
    requires { HasNumbers plan.now }
    ensures { result ≡ meant.constraint_named plan.now name.now number slots.now }
{
    let dependency = dependency_named(plan, name)?;
    constraint_of(plan, dependency, number, slots)
}

fn is_line_of(slot: u32, kind: &Kind) -> bool
    ensures { result ≡ is_line_of slot kind.now }
{
    match kind {
        Kind::Line(other) => slot == *other,
        _ => false,
    }
}

fn is_line(slot: u32, number: u32, rule: &Rule) -> bool
    ensures { result ≡ meant.is_line slot number rule.now }
{
    is_line_of(slot, &rule.kind) && rule.number == number
}

fn line_place(list: &[Rule], slot: u32, number: u32) -> Option<usize>
    ensures at { result ≡ position (meant.is_line slot number) list.now }
    ensures within { IfSome result (λ at. at < length list.now) }
{
    list.iter().position(|rule| is_line(slot, number, rule))
}

/// The rule by which the slot is here under its selection condition of this number, from 1; 0 where it has none.
pub fn line_numbered(plan: &Plan, slot: u32, number: u32) -> Option<u32>
    requires { HasNumbers plan.now }
    ensures { result ≡ meant.line_numbered plan.now slot number }
{
    match line_place(plan.rules.as_slice(), slot, number) {
        Some(place) => Some(place as u32),
        None => None,
    }
}

fn is_last_of(var: u32, kind: &Kind) -> bool
    ensures { result ≡ is_last_of var kind.now }
{
    match kind {
        Kind::Last(other) => var == *other,
        _ => false,
    }
}

fn is_last(var: u32, rule: &Rule) -> bool
    ensures { result ≡ meant.is_last var rule.now }
{
    is_last_of(var, &rule.kind)
}

fn last_place(list: &[Rule], var: u32) -> Option<usize>
    ensures at { result ≡ position (meant.is_last var) list.now }
    ensures within { IfSome result (λ at. at < length list.now) }
{
    list.iter().position(|rule| is_last(var, rule))
}

/// The rule by which the variable has its last grain.
pub fn last_of(plan: &Plan, var: u32) -> Option<u32>
    requires { HasNumbers plan.now }
    ensures { result ≡ meant.last_of plan.now var }
{
    match last_place(plan.rules.as_slice(), var) {
        Some(place) => Some(place as u32),
        None => None,
    }
}

fn is_place_of(dependency: u32, slot: u32, procedure: &Procedure) -> bool
    ensures { result ≡ meant.is_place_of dependency slot procedure.now }
{
    procedure.slot == slot && procedure.dependency == dependency
}

fn procedure_place(list: &[Procedure], dependency: u32, slot: u32) -> Option<usize>
    ensures at { result ≡ position (meant.is_place_of dependency slot) list.now }
    ensures within { IfSome result (λ at. at < length list.now) }
{
    list.iter()
        .position(|procedure| is_place_of(dependency, slot, procedure))
}

fn procedure_of(plan: &Plan, dependency: u32, slot: u32) -> Option<u32>
    requires { HasNumbers plan.now }
    ensures { result ≡ meant.procedure_of plan.now dependency slot }
{
    match procedure_place(plan.procedures.as_slice(), dependency, slot) {
        Some(place) => Some(place as u32),
        None => None,
    }
}

fn procedure_named(plan: &Plan, name: &[u8], slot: u32) -> Option<u32>
    requires { HasNumbers plan.now }
    ensures { result ≡ meant.procedure_named plan.now name.now slot }
{
    let dependency = dependency_named(plan, name)?;
    procedure_of(plan, dependency, slot)
}

fn statement_in(number: u32, procedure: &Procedure) -> Option<u32>
    ensures { result ≡ meant.statement_in number procedure.now }
{
    if 0 < number && number as usize <= procedure.statements.len() {
        Some(number - 1)
    } else {
        None
    }
}

/// The first place of the procedure at the slot, and its statement of this number, from 1.
pub fn statement_numbered(plan: &Plan, name: &[u8], number: u32, slot: u32) -> Option<(u32, u32)>
    requires { HasNumbers plan.now }
    ensures { result ≡ meant.statement_numbered plan.now name.now number slot }
{
    let place = procedure_named(plan, name, slot)?;
    let procedure = element(plan.procedures.as_slice(), place)?;
    let statement = statement_in(number, procedure)?;
    Some((place, statement))
}

fn some_column(var: u32, filled: &[FilledColumn]) -> bool
    ensures { result ≡ list_any (λ column. column.var == var) filled.now }
{
    filled.iter().any(|column| column.var == var)
}

fn fills(var: u32, filled: &[FilledColumn]) -> bool
    ensures { result ≡ list_any (λ w. w == var) (meant.filled_vars filled.now) }
{
    some_column(var, filled)
}

fn enters(var: u32, action: &Action) -> bool
    ensures { result ≡ list_any (λ w. w == var) (action_writes action.now) }
{
    match action {
        Action::Assign { var: other, .. } | Action::SetDefault { var: other, .. } => *other == var,
        Action::DeleteDefault { .. } => false,
        Action::LookUp { filled, .. } => fills(var, filled.as_slice()),
    }
}

fn statement_writes(var: u32, procedure: &Procedure, statement: u32) -> bool
    ensures { result ≡ statement_writes var (slice_get procedure.now.statements statement) }
{
    match element(procedure.statements.as_slice(), statement) {
        Some(statement) => enters(var, &statement.action),
        None => false,
    }
}

/// Whether the procedure's statement writes the variable.
pub fn is_writer(plan: &Plan, var: u32, procedure: u32, statement: u32) -> bool
    ensures { result ≡ meant.is_writer plan.now var procedure statement }
{
    match element(plan.procedures.as_slice(), procedure) {
        Some(procedure) => statement_writes(var, procedure, statement),
        None => false,
    }
}
