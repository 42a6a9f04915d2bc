//! How much room a yield needs for what the rules of a plan say.

ghost use Rattle.std.specs.Prelude.{◌≡◌, length, slice_get, IfOk, IfSome};
ghost use Rattle.vc_plan.specs.Reads.{vars_in, vars_of_term, vars_read};
ghost use Rattle.vc_plan.specs.Restrictions.{lone_inferred};
ghost use Rattle.vc_plan.specs.TableRows.{rows_of};
ghost use Rattle.vc_rule_yield.specs.Scratches.{has_rooms};
ghost use Rattle.vc_rule_yield.specs.Yielding.{nothing_in};
ghost use Rattle.vc_rule.specs.Rooms.{acting_reads, comparison_room, grains_in_all, greater, keys_for, lone_grains};
ghost use Rattle.vc_rule.specs.Rooms.{most_grains};
ghost use Rattle.vc_rule.specs.Rooms.{most_rows, room_by, room_in, room_of_kind, rooms_of, sides_reads, table_room};

use std::alloc::{AllocError, Global};
use vc_plan::{Condition, Kind, Plan, Rule, Table, Term, count_of, element};
use vc_plan_values::lone_inferred;
use vc_rule_table::cells::grain_count;
use vc_rule_yield::{Scratch, Yield};
use vc_value::Domain;

/// How many premises are cited for one conclusion, how many conclusions there are, and how many premises all of them
/// have, at most.
#[derive(Clone, Copy, Debug)]
pub struct Room {
    pub cites: usize,
    pub atoms: usize,
    pub premises: usize,
}

/// An empty yield with room for whatever a rule of the plan says at any view whose values lie in grains. Where that is
/// too much to be counted, it is too much memory.
pub fn new_yield(alloc: Global, plan: &Plan) -> Result<Yield, AllocError>
    ensures { IfOk result (λ out. out ≡ nothing_in (rooms_of plan.now)) }
{
    match room_of(plan) {
        Some(room) => {
            let mut out = Yield::new(alloc, room.cites, room.atoms, room.premises)?;
            out.put_scratch(new_scratch(alloc, plan)?);
            Ok(out)
        }
        None => Err(AllocError),
    }
}

// Scratch for the rows of any table, and for the texts and grains of any domain.
fn new_scratch(alloc: Global, plan: &Plan) -> Result<Scratch, AllocError>
    ensures { IfOk result (λ scratch. has_rooms (most_rows 0 plan.now.tables) (keys_for plan.now) scratch) }
{
    Scratch::new(alloc, most_rows(plan.tables.as_slice()), keys_for(plan))
}

fn most_rows(tables: &[Table]) -> usize
    ensures { result ≡ most_rows 0 tables.now }
{
    let mut most: usize = 0;
    let mut rest = tables;
    while let [table, more @ ..] = rest {
        most = most.max(table.rows.len());
        rest = more;
    }
    most
}

fn most_grains(domains: &[Domain]) -> usize
    ensures { result ≡ most_grains 0 domains.now }
{
    let mut most: usize = 0;
    let mut rest = domains;
    while let [domain, more @ ..] = rest {
        most = most.max(grain_count(domain));
        rest = more;
    }
    most
}

// None is needed where there are no tables.
fn keys_for(plan: &Plan) -> usize
    ensures { result ≡ keys_for plan.now }
{
    if plan.tables.is_empty() {
        0
    } else {
        plan.texts.len().max(most_grains(plan.domains.as_slice()))
    }
}

#[tactic(auto, using(crate::proofs::RoomLemmas::one_greater, crate::proofs::RoomLemmas::none_greater))]
fn room_of(plan: &Plan) -> Option<Room>
    ensures { IfSome result (λ room. room_in room ≡ rooms_of plan.now) }
{
    let mut room = Room {
        cites: 0,
        atoms: 0,
        premises: 0,
    };
    let mut rest = plan.rules.as_slice();
    while let [rule, more @ ..] = rest {
        room = greater(room, room_of_kind(plan, rule, &rule.kind)?);
        rest = more;
    }
    Some(room)
}

fn greater(first: Room, second: Room) -> Room
    ensures { room_in result ≡ greater (room_in first) (room_in second) }
{
    Room {
        cites: first.cites.max(second.cites),
        atoms: first.atoms.max(second.atoms),
        premises: first.premises.max(second.premises),
    }
}

// What a rule of the kind needs: see the definition.
fn room_of_kind(plan: &Plan, rule: &Rule, kind: &Kind) -> Option<Room>
    ensures { IfSome result (λ room. room_in room ≡ room_of_kind plan.now rule.now kind.now) }
{
    let acting = acting_reads(plan, rule)?;
    match kind {
        Kind::Among(var, _) => {
            let grains = count_of(plan, *var);
            room_by(acting, grains, grains, 1)
        }
        Kind::Compare {
            relation: _,
            left,
            right,
        } => room_of_comparison(plan, rule, acting, *left, *right),
        Kind::Equate { left, right } => {
            room_by(
                acting.checked_add(sides_reads(plan, *left, *right)?)?,
                0,
                2,
                0,
            )
        }
        Kind::ByTable { table, columns: _ } => room_of_table(plan, rule, acting, *table),
        Kind::Never => room_by(acting, 0, 0, 0),
        Kind::Last(var) => room_by(acting, count_of(plan, *var).checked_add(1)?, 1, 1),
        Kind::Line(_) => room_by(acting, 1, 1, 1),
    }
}

fn room_of_comparison(
    plan: &Plan,
    rule: &Rule,
    acting: usize,
    left: u32,
    right: u32,
) -> Option<Room>
    ensures { IfSome result (λ room. room_in room ≡ comparison_room plan.now rule.now acting left right) }
{
    let common = acting.checked_add(sides_reads(plan, left, right)?)?;
    let grains = lone_grains(plan, rule, left).checked_add(lone_grains(plan, rule, right))?;
    room_by(common, grains, grains, 1)
}

fn room_of_table(plan: &Plan, rule: &Rule, acting: usize, table: u32) -> Option<Room>
    ensures { IfSome result (λ room. room_in room ≡ table_room plan.now rule.now acting table) }
{
    let grains = grains_in_all(plan, rule.inferred.as_slice())?;
    let lists = rule.inferred.len().checked_add(1)?;
    room_by(acting, row_count(plan, table), grains, lists)
}

// Room for so many atoms, each from the common premises, and so many lists of premises of their own beside these.
fn room_by(common: usize, own: usize, atoms: usize, lists: usize) -> Option<Room>
    ensures { IfSome result (λ room. room_in room ≡ room_by common own atoms lists) }
{
    let commons = atoms.checked_add(1)?.checked_mul(common)?;
    Some(Room {
        cites: common.checked_add(own)?,
        atoms,
        premises: commons.checked_add(lists.checked_mul(own)?)?,
    })
}

// How many slots the rule has, and how many times its condition reads a variable.
fn acting_reads(plan: &Plan, rule: &Rule) -> Option<usize>
    ensures { IfSome result (λ count. count ≡ acting_reads plan.now rule.now) }
{
    match element(plan.conditions.as_slice(), rule.condition) {
        Some(condition) => rule.slots.len().checked_add(reads_in_condition(condition)?),
        None => Some(rule.slots.len()),
    }
}

fn sides_reads(plan: &Plan, left: u32, right: u32) -> Option<usize>
    ensures { IfSome result (λ count. count ≡ sides_reads plan.now left right) }
{
    reads_of_term(plan, left)?.checked_add(reads_of_term(plan, right)?)
}

fn reads_of_term(plan: &Plan, term: u32) -> Option<usize>
    ensures { IfSome result (λ count. count ≡ length (vars_of_term (slice_get plan.now.terms term))) }
{
    match element(plan.terms.as_slice(), term) {
        Some(term) => reads_in_term(term),
        None => Some(0),
    }
}

fn reads_in_term(term: &Term) -> Option<usize>
    ensures { IfSome result (λ count. count ≡ length (vars_in term.now)) }
{
    match term {
        Term::Read(_) => Some(1),
        Term::Applied(_, inner) => reads_in_term(inner),
        Term::Joined(_, left, right) => reads_in_term(left)?.checked_add(reads_in_term(right)?),
        _ => Some(0),
    }
}

fn reads_in_condition(condition: &Condition) -> Option<usize>
    ensures { IfSome result (λ count. count ≡ length (vars_read condition.now)) }
{
    match condition {
        Condition::Compared(_, left, right) => reads_in_term(left)?.checked_add(reads_in_term(
            right,
        )?),
        Condition::IsIn(_, _) => Some(1),
        Condition::Specified(_) => Some(1),
        Condition::Not(inner) => reads_in_condition(inner),
        Condition::And(left, right) => reads_in_condition(left)?.checked_add(reads_in_condition(
            right,
        )?),
        Condition::Or(left, right) => reads_in_condition(left)?.checked_add(reads_in_condition(
            right,
        )?),
        _ => Some(0),
    }
}

// How many grains the variable has that the term is, if it is one alone that the rule may narrow.
fn lone_grains(plan: &Plan, rule: &Rule, term: u32) -> usize
    ensures { result ≡ lone_grains plan.now (lone_inferred plan.now rule.now term) }
{
    match lone_inferred(plan, rule, term) {
        Some(var) => count_of(plan, var),
        None => 0,
    }
}

fn grains_in_all(plan: &Plan, vars: &[u32]) -> Option<usize>
    ensures { IfSome result (λ count. count ≡ grains_in_all plan.now vars.now) }
{
    let mut count: usize = 0;
    let mut rest = vars;
    while let [var, more @ ..] = rest {
        count = count.checked_add(count_of(plan, *var))?;
        rest = more;
    }
    Some(count)
}

fn row_count(plan: &Plan, table: u32) -> usize
    ensures { result ≡ length (rows_of plan.now table) }
{
    match element(plan.tables.as_slice(), table) {
        Some(table) => table.rows.len(),
        None => 0,
    }
}
