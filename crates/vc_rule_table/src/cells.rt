//! Cells of tables, against the grains of variables.

ghost use Rattle.std.specs.Prelude.{◌≡◌, ◌^◌, ◌<◌, [], ◌∷◌, length, map, Some, None};
ghost use Rattle.std.specs.List.{filter};
ghost use Rattle.vc_plan.specs.declared.atoms.Atom.TheVariants.{Out};
ghost use Rattle.vc_plan.specs.Domains.{domain_of, grains_in};
ghost use Rattle.vc_plan.specs.TableRows.{has_left, fits};
ghost use Rattle.vc_rule_premises.specs.Citing.{cited_all};
ghost use Rattle.vc_rule_table.specs.Cells.{FewGrains, grain_holds, left_among, holds_left, has_left_among, out_among};
ghost use Rattle.vc_rule_table.specs.Reasons.{grains_out, cell_reasons, operand_reasons};

use vc_plan::{Atom, Operand, Plan, View};
use vc_plan_values::grains::{domain_of, piece_in};
use vc_plan_values::lies_in;
use vc_rule_yield::Yield;
use vc_rule_yield::atoms::same_value;
use vc_value::{Domain, Value};

/// How many grains there are.
#[tactic(auto, using(crate::proofs::CellLemmas::texts_counted, crate::proofs::CellLemmas::stretches_counted))]
pub fn grain_count(domain: &Domain) -> usize
    ensures { result ≡ length (grains_in (Some domain.now)) }
{
    match domain {
        Domain::Texts(texts) => texts.len(),
        Domain::Nums {
            decimals: _,
            grains,
        } => grains.count() as usize,
    }
}

/// Whether there is a grain of this number that holds the value.
pub fn grain_holds(domain: &Domain, grain: usize, value: Value) -> bool
    ensures { result ≡ grain_holds (grains_in (Some domain.now)) value grain }
{
    match piece_in(domain, grain) {
        Some(piece) => lies_in(value, piece),
        None => false,
    }
}

fn is_left<V: View>(view: &V, domain: &Domain, var: u32, known: Option<Value>, grain: usize) -> bool
    requires { grain < 2 ^ 32 }
    ensures { result ≡ left_among (grains_in (Some domain.now)) (V.seen view.now) var known grain }
{
    match known {
        Some(value) => grain_holds(domain, grain, value),
        None => !view.out(var, grain as u32),
    }
}

fn holds_left<V: View>(
    view: &V,
    domain: &Domain,
    var: u32,
    known: Option<Value>,
    value: Value,
    grain: usize,
) -> bool
    requires { grain < 2 ^ 32 }
    ensures { result ≡ holds_left (grains_in (Some domain.now)) (V.seen view.now) var known value grain }
{
    grain_holds(domain, grain, value) && is_left(view, domain, var, known, grain)
}

/// Whether a grain that holds the value is left where the variable has this value, or none.
pub fn has_left_among<V: View>(
    view: &V,
    domain: &Domain,
    var: u32,
    known: Option<Value>,
    value: Value,
) -> bool
    requires { length (grains_in (Some domain.now)) < 2 ^ 32 }
    ensures { result ≡ has_left_among (grains_in (Some domain.now)) (V.seen view.now) var known value }
{
    for grain in 0..grain_count(domain) {
        if holds_left(view, domain, var, known, value, grain) {
            return true;
        }
    }
    false
}

/// Whether a grain that is left of the variable holds the value.
pub fn has_left<V: View>(plan: &Plan, view: &V, var: u32, value: Value) -> bool
    requires few { FewGrains plan.now }
    ensures { result ≡ has_left plan.now (V.seen view.now) var value }
{
    match domain_of(plan, var) {
        Some(domain) => has_left_among(view, domain, var, view.value(var), value),
        None => false,
    }
}

/// Whether a cell of this value is possible with what its column is given.
pub fn fits<V: View>(plan: &Plan, view: &V, operand: Operand, value: Value) -> bool
    requires few { FewGrains plan.now }
    ensures { result ≡ fits plan.now (V.seen view.now) operand value }
{
    match operand {
        Operand::Constant(literal) => same_value(literal, value),
        Operand::Variable(var) => has_left(plan, view, var, value),
    }
}

// Cites that the grain is out, if it holds the value.
fn cite_if_holds(domain: &Domain, var: u32, value: Value, grain: usize, out: &mut Yield)
    requires { grain < 2 ^ 32 }
    ensures { out.new ≡ cited_all out.old (map (Out var) (filter (grain_holds (grains_in (Some domain.now)) value)
        (grain ∷ []))) }
{
    if grain_holds(domain, grain, value) {
        out.cite(Atom::Out(var, grain as u32));
    }
}

fn cite_out_among(domain: &Domain, var: u32, value: Value, out: &mut Yield)
    requires { length (grains_in (Some domain.now)) < 2 ^ 32 }
    ensures { out.new ≡ cited_all out.old (out_among (grains_in (Some domain.now)) var value) }
{
    for grain in 0..grain_count(domain) {
        cite_if_holds(domain, var, value, grain, out);
    }
}

fn cite_grains_out(plan: &Plan, var: u32, value: Value, out: &mut Yield)
    requires few { FewGrains plan.now }
    ensures { out.new ≡ cited_all out.old (grains_out plan.now var value) }
{
    if let Some(domain) = domain_of(plan, var) {
        cite_out_among(domain, var, value, out);
    }
}

fn cite_cell<V: View>(plan: &Plan, view: &V, var: u32, value: Value, out: &mut Yield)
    requires few { FewGrains plan.now }
    ensures { out.new ≡ cited_all out.old (cell_reasons plan.now var value ((V.seen view.now).value var)) }
{
    match view.value(var) {
        Some(known) => out.cite(Atom::Is(var, known)),
        None => cite_grains_out(plan, var, value, out),
    }
}

/// Cites why the cell isn't possible with what its column is given.
pub fn cite_operand<V: View>(
    plan: &Plan,
    view: &V,
    operand: Operand,
    cell: Option<Value>,
    out: &mut Yield,
)
    requires few { FewGrains plan.now }
    ensures { out.new ≡ cited_all out.old (operand_reasons plan.now (V.seen view.now) operand cell) }
{
    match (operand, cell) {
        (Operand::Variable(var), Some(value)) => cite_cell(plan, view, var, value, out),
        _ => {}
    }
}
