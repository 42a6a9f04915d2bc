//! Which facts stay when sources change.

ghost use Rattle.std.specs.Prelude.{◌≡◌, ◌<◌, ◌≤◌, true, drop, length, nat_eq, option_map, slice_get};
ghost use Rattle.std.specs.List.{IsDistinct, position_or_len};
ghost use Rattle.vc_plan_reasons.specs.Checking.{var_of};
ghost use Rattle.vc_plan_reasons.specs.Keeping.{entry_differs, same_entry, same_mark, same_user, user_differs};
ghost use Rattle.vc_plan_sources.specs.Changes.{entry_from};
ghost use Rattle.vc_net_places.specs.Places.{place_in};
ghost use Rattle.vc_net_standing.specs.Standing.{atoms_of, places_of};
ghost use Rattle.vc_net_log.specs.Differing.{SameBeside, are_givable, gone_at, least_gone, number_if_gone};
ghost use Rattle.vc_net_log.specs.Keeping.{IsCounted};
ghost use Rattle.vc_net_log.specs.Staying.{AreApart, HasCells, all_stand, differs, needed, staying, stays};
ghost use Rattle.vc_net_log.specs.Staying.{with_facts};

use crate::cells::premises_at;
use crate::counting::count_one_more;
use vc_net_places::Cells;
use vc_net_standing::{Fact, Standing};
use vc_plan::{Atom, Mark, Origin};
use vc_plan_sources::Sources;
use vc_rule_yield::atoms::same_value;
use vc_value::{Listed, Value};

/// Whether the user's value of the variable differs.
pub fn user_differs(old: &Sources, new: &Sources, var: u32) -> bool
    ensures { result ≡ user_differs old.now new.now var }
{
    !same_user(old.user(var), new.user(var))
}

/// Whether what was written to the variable differs.
pub fn entry_differs(old: &Sources, new: &Sources, var: u32) -> bool
    ensures { result ≡ entry_differs old.now new.now var }
{
    !same_entry(old.written(var), new.written(var))
}

fn same_user(one: Option<Value>, other: Option<Value>) -> bool
    ensures { result ≡ same_user one other }
{
    match one {
        Some(one) => match other {
            Some(other) => same_value(one, other),
            None => false,
        },
        None => other.is_none(),
    }
}

fn same_entry(one: Option<(Mark, u32, u32)>, other: Option<(Mark, u32, u32)>) -> bool
    ensures { result ≡ same_entry (option_map entry_from one) (option_map entry_from other) }
{
    match one {
        Some((mark, procedure, statement)) => match other {
            Some((other_mark, other_procedure, other_statement)) => {
                same_mark(mark, other_mark)
                    && (procedure == other_procedure && statement == other_statement)
            }
            None => false,
        },
        None => other.is_none(),
    }
}

fn same_mark(one: Mark, other: Mark) -> bool
    ensures { result ≡ same_mark one other }
{
    match one {
        Mark::Held(one) => match other {
            Mark::Held(other) => same_value(one, other),
            Mark::Outside => false,
        },
        Mark::Outside => match other {
            Mark::Held(_) => false,
            Mark::Outside => true,
        },
    }
}

// The variable of an atom, if it is of one.
fn var_of(atom: Atom) -> Option<u32>
    ensures { result ≡ var_of atom }
{
    match atom {
        Atom::Here(_) => None,
        Atom::Out(var, _) => Some(var),
        Atom::Is(var, _) => Some(var),
    }
}

/// Whether the source that gave the fact differs; a rule is none.
pub fn differs(old: &Sources, new: &Sources, fact: Fact) -> bool
    ensures { result ≡ differs old.now new.now fact }
{
    match fact.origin {
        Origin::Rule(_) => false,
        Origin::User => match var_of(fact.atom) {
            Some(var) => user_differs(old, new, var),
            None => false,
        },
        Origin::Written {
            proc: _,
            statement: _,
        } => match var_of(fact.atom) {
            Some(var) => entry_differs(old, new, var),
            None => false,
        },
    }
}

/// The number of the first fact whose source differs, counted from 0; of all, where none does.
pub fn first_gone(facts: &[Fact], old: &Sources, new: &Sources) -> usize
    ensures { result ≡ position_or_len (differs old.now new.now) facts.now }
{
    let mut first = 0;
    let mut rest = facts;
    while let [fact, more @ ..] = rest {
        if differs(old, new, *fact) {
            return first;
        }
        first += 1;
        rest = more;
    }
    first
}

/// The same, where the user's values differ for the first variables at most, and what is written for the second. No
/// fact is looked at but those of these variables' values.
pub fn first_gone_at(
    standing: &Standing,
    old: &Sources,
    new: &Sources,
    touched: &[u32],
    written: &[u32],
) -> usize
    requires once { IsDistinct nat_eq (places_of standing.now.index standing.now.facts) }
    requires givable { are_givable standing.now.facts ≡ true }
    requires touched { SameBeside touched.now old.now.user new.now.user }
    requires written { SameBeside written.now old.now.written new.now.written }
    ensures { result ≡ position_or_len (differs old.now new.now) standing.now.facts }
{
    let by_users = least_gone(standing, old, new, touched, standing.facts().len());
    least_gone(standing, old, new, written, by_users)
}

// The least of the number and those of the facts that are values of the variables and whose source differs.
fn least_gone(
    standing: &Standing,
    old: &Sources,
    new: &Sources,
    vars: &[u32],
    number: usize,
) -> usize
    ensures { result ≡ least_gone standing.now.index (differs old.now new.now) standing.now.facts number vars.now }
{
    let mut least = number;
    let mut rest = vars;
    while let [var, more @ ..] = rest {
        least = least.min(gone_at(standing, old, new, *var));
        rest = more;
    }
    least
}

// The number of the fact that is the variable's value, where its source differs; of all, where there is none.
fn gone_at(standing: &Standing, old: &Sources, new: &Sources, var: u32) -> usize
    ensures { result ≡ gone_at standing.now.index (differs old.now new.now) standing.now.facts var }
{
    let facts = standing.facts();
    match standing.number_by_place(standing.places().first(var)) {
        Some(number) => number_if_gone(facts, old, new, number),
        None => facts.len(),
    }
}

// The number, where the source of the fact of this number differs; of all, where it doesn't.
fn number_if_gone(facts: &[Fact], old: &Sources, new: &Sources, number: usize) -> usize
    ensures { result ≡ number_if_gone (differs old.now new.now) (length facts.now) number
        (slice_get facts.now number) }
{
    match facts.get(number) {
        Some(fact) if differs(old, new, *fact) => number,
        _ => facts.len(),
    }
}

/// The facts from this number on.
pub fn facts_from(facts: &[Fact], first: usize) -> &[Fact]
    requires { first ≤ length facts.now }
    ensures { result.now ≡ drop first facts.now }
{
    &facts[first..]
}

// Whether something stands at each of the places.
fn all_stand(standing: &Standing, places: &[u32]) -> bool
    ensures { result ≡ all_stand standing.now.index standing.now.facts places.now }
{
    let mut rest = places;
    while let [place, more @ ..] = rest {
        if standing.number_by_place(*place as usize).is_none() {
            return false;
        }
        rest = more;
    }
    true
}

// Whether the fact stays: its source doesn't differ, and what it follows from stands.
fn stays(
    standing: &Standing,
    cells: &Cells,
    counts: &[u32],
    premises: &[u32],
    old: &Sources,
    new: &Sources,
    fact: Fact,
) -> bool
    requires cells { HasCells standing.now.index cells.now counts.now premises.now }
    requires place { place_in standing.now.index fact.atom < length standing.now.index.things }
    ensures { result ≡ stays standing.now.index (differs old.now new.now)
        (needed standing.now.index cells.now counts.now premises.now) standing.now.facts fact }
{
    let place = standing.places().place_of(fact.atom);
    !differs(old, new, fact) && all_stand(standing, premises_at(cells, counts, premises, place))
}

/// Puts those of the facts that stay behind those that stand, in their order, and counts them. Their premises are in
/// the cells still.
pub fn put_back(
    standing: &mut Standing,
    outs: &mut Listed<u32>,
    cells: &Cells,
    counts: &[u32],
    premises: &[u32],
    old: &Sources,
    new: &Sources,
    facts: &[Fact],
)
    requires cells { HasCells standing.old.index cells.now counts.now premises.now }
    requires apart { AreApart standing.old facts.now }
    requires counted { IsCounted (atoms_of standing.old.facts) outs.old }
    ensures kept { standing.new ≡ with_facts standing.old (staying standing.old.index (differs old.now new.now)
        (needed standing.old.index cells.now counts.now premises.now) standing.old.facts facts.now) }
    ensures counted { IsCounted (atoms_of standing.new.facts) outs.new }
    ensures long { length outs.new ≡ length outs.old }
{
    let mut rest = facts;
    while let [fact, more @ ..] = rest {
        if stays(standing, cells, counts, premises, old, new, *fact) {
            standing.put(*fact);
            count_one_more(fact.atom, outs);
        }
        rest = more;
    }
}
