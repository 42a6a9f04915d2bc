//! What the restrictions of constraints demand, as kinds of rules.

ghost use Rattle.std.specs.Prelude.{◌≡◌, map, IfOk, Some};
ghost use Rattle.std.specs.Option.{option_copied};
ghost use Rattle.vc_syntax_tree.specs.Trees.{term_of};
ghost use Rattle.vc_syntax_tree.specs.Trees as syntax;
ghost use Rattle.vc_plan.specs.declared.rules.Kind.TheVariants.{Among, ByTable};
ghost use Rattle.vc_plan.specs.declared.rules.Restriction.TheVariants.{Against, OneOf};
ghost use Rattle.vc_compile_plan.specs.Conditions as conditions;
ghost use Rattle.vc_compile_plan.specs.Rules as rules;
ghost use Rattle.vc_compile_plan.specs.Sites.{var_meant};
ghost use Rattle.vc_compile_plan.specs.Tables.{table_number};
ghost use Rattle.vc_compile_plan.specs.Terms as terms;
ghost use Rattle.vc_compile_numbering.specs.Growing.{kept};
ghost use Rattle.vc_compile_layout.specs.Standing.{layout_seen};
ghost use Rattle.vc_compile_sites.specs.Standing.{site_seen};
ghost use Rattle.vc_compile_rules.specs.Adding.{IsDemanded};

use std::alloc::{AllocError, Global};
use vc_compile_layout::Layout;
use vc_compile_numbering::Trees;
use vc_compile_sites::conditions::{pieces_of, relation_of};
use vc_compile_sites::{Site, literal_of, lone_of, term_at};
use vc_plan::{
    Binding as PlanBinding, Kind, Operand as PlanOperand, Relation as PlanRelation, Restriction,
};
use vc_plan_values::turned;
use vc_syntax_tree::{Binding, Demand, Item, Operand, Relation, Relator, TableCall, Term};
use vc_value::{Listed, Value};

// A relation of two terms, each with a number of its own.
fn of_terms(
    alloc: Global,
    layout: &Layout<'_, '_>,
    site: &Site<'_, '_, '_, '_>,
    left: &Term,
    relator: Relator,
    right: &Term,
    trees: &mut Trees,
) -> Result<Kind, AllocError>
    ensures { IfOk result (λ kind. IsDemanded (kept trees.old) (rules.of_terms (layout_seen layout.now)
        (site_seen site.now) relator (term_of left.now) (term_of right.now)) kind (kept trees.new)) }
{
    let left = trees.add_term(term_at(alloc, layout, site, left)?)?;
    let right = trees.add_term(term_at(alloc, layout, site, right)?)?;
    match relator {
        Relator::Equal => Ok(Kind::Equate { left, right }),
        _ => Ok(Kind::Compare {
            relation: relation_of(relator),
            left,
            right,
        }),
    }
}

fn against(
    layout: &Layout<'_, '_>,
    site: &Site<'_, '_, '_, '_>,
    relation: PlanRelation,
    operand: &Operand,
    value: Value,
) -> Kind
    ensures { result ≡ Among (var_meant (layout_seen layout.now) (site_seen site.now) operand.now)
        (Against relation value) }
{
    Kind::Among(
        site.var_meant(layout, operand),
        Restriction::Against(relation, value),
    )
}

// A relation whose right side is an operand alone, and its left side this literal, if they are.
fn of_right_operand(
    alloc: Global,
    layout: &Layout<'_, '_>,
    site: &Site<'_, '_, '_, '_>,
    operand: Option<&Operand>,
    value: Option<Value>,
    left: &Term,
    relator: Relator,
    right: &Term,
    trees: &mut Trees,
) -> Result<Kind, AllocError>
    ensures { IfOk result (λ kind. IsDemanded (kept trees.old) (rules.of_right_operand (layout_seen layout.now)
        (site_seen site.now) (option_copied operand.entry) value relator (term_of left.now) (term_of right.now)) kind
        (kept trees.new)) }
{
    match (operand, value) {
        (Some(operand), Some(value)) => {
            let relation = turned(relation_of(relator));
            Ok(against(layout, site, relation, operand, value))
        }
        _ => of_terms(alloc, layout, site, left, relator, right, trees),
    }
}

// A relation whose left side is this operand alone, and its right side this literal, if it is one.
fn of_left_operand(
    alloc: Global,
    layout: &Layout<'_, '_>,
    site: &Site<'_, '_, '_, '_>,
    operand: &Operand,
    value: Option<Value>,
    left: &Term,
    relator: Relator,
    right: &Term,
    trees: &mut Trees,
) -> Result<Kind, AllocError>
    ensures { IfOk result (λ kind. IsDemanded (kept trees.old) (rules.of_left_operand (layout_seen layout.now)
        (site_seen site.now) (Some operand.now) value relator (term_of left.now) (term_of right.now)) kind
        (kept trees.new)) }
{
    match value {
        Some(value) => Ok(against(layout, site, relation_of(relator), operand, value)),
        None => of_terms(alloc, layout, site, left, relator, right, trees),
    }
}

fn of_comparison(
    alloc: Global,
    layout: &Layout<'_, '_>,
    site: &Site<'_, '_, '_, '_>,
    left: &Term,
    relator: Relator,
    right: &Term,
    trees: &mut Trees,
) -> Result<Kind, AllocError>
    ensures { IfOk result (λ kind. IsDemanded (kept trees.old) (rules.of_left_operand (layout_seen layout.now)
        (site_seen site.now) (terms.lone_of (term_of left.now))
        (terms.literal_of (layout_seen layout.now).texts (term_of right.now)) relator (term_of left.now)
        (term_of right.now)) kind (kept trees.new)) }
{
    match lone_of(left) {
        Some(operand) => {
            let value = literal_of(layout, right)?;
            of_left_operand(
                alloc, layout, site, operand, value, left, relator, right, trees,
            )
        }
        None => {
            let value = literal_of(layout, left)?;
            let operand = lone_of(right);
            of_right_operand(
                alloc, layout, site, operand, value, left, relator, right, trees,
            )
        }
    }
}

fn of_relation(
    alloc: Global,
    layout: &Layout<'_, '_>,
    site: &Site<'_, '_, '_, '_>,
    relation: &Relation,
    trees: &mut Trees,
) -> Result<Kind, AllocError>
    ensures { IfOk result (λ kind. IsDemanded (kept trees.old) (rules.relation_demand (layout_seen layout.now)
        (site_seen site.now) (syntax.relation_of relation.now)) kind (kept trees.new)) }
{
    match relation {
        Relation::Compared(left, relator, right) => {
            of_comparison(alloc, layout, site, left, *relator, right, trees)
        }
        Relation::Within(operand, items) => {
            of_list(alloc, layout, site, operand.get(), items.as_slice())
        }
    }
}

fn of_list(
    alloc: Global,
    layout: &Layout<'_, '_>,
    site: &Site<'_, '_, '_, '_>,
    operand: &Operand,
    items: &[Item],
) -> Result<Kind, AllocError>
    ensures { IfOk result (λ kind. kind ≡ Among (var_meant (layout_seen layout.now) (site_seen site.now) operand.now)
        (OneOf (map (conditions.piece_of (layout_seen layout.now).texts) items.now))) }
{
    let pieces = pieces_of(alloc, layout, items)?;
    Ok(Kind::Among(site.var_meant(layout, operand), Restriction::OneOf(pieces)))
}

// What a column is given: a literal or a variable.
fn given_operand(
    layout: &Layout<'_, '_>,
    site: &Site<'_, '_, '_, '_>,
    term: &Term,
) -> Result<PlanOperand, AllocError>
    ensures { IfOk result (λ given. given ≡ rules.given_operand (layout_seen layout.now) (site_seen site.now)
        (terms.literal_of (layout_seen layout.now).texts (term_of term.now)) (terms.lone_of (term_of term.now))) }
{
    match (literal_of(layout, term)?, lone_of(term)) {
        (Some(value), _) => Ok(PlanOperand::Constant(value)),
        (None, Some(operand)) => Ok(PlanOperand::Variable(site.var_meant(layout, operand))),
        (None, None) => Ok(PlanOperand::Variable(0)),
    }
}

fn binding_at(
    layout: &Layout<'_, '_>,
    site: &Site<'_, '_, '_, '_>,
    table: &[u8],
    binding: &Binding,
) -> Result<PlanBinding, AllocError>
    ensures { IfOk result (λ given. given ≡ rules.binding_at (layout_seen layout.now) (site_seen site.now) table.now
        (syntax.binding_of binding.now)) }
{
    Ok(PlanBinding {
        column: layout.column_number(table, binding.column.name.bytes())?,
        operand: given_operand(layout, site, &binding.value)?,
    })
}

fn bindings_at(
    alloc: Global,
    layout: &Layout<'_, '_>,
    site: &Site<'_, '_, '_, '_>,
    table: &[u8],
    bindings: &[Binding],
) -> Result<Listed<PlanBinding>, AllocError>
    ensures { IfOk result (λ given. given
        ≡ map (rules.binding_at (layout_seen layout.now) (site_seen site.now) table.now)
        (map syntax.binding_of bindings.now)) }
{
    let mut given = Listed::new(alloc);
    for binding in bindings {
        given.push(binding_at(layout, site, table, binding)?)?;
    }
    Ok(given)
}

fn of_call(
    alloc: Global,
    layout: &Layout<'_, '_>,
    site: &Site<'_, '_, '_, '_>,
    call: &TableCall,
) -> Result<Kind, AllocError>
    ensures { IfOk result (λ kind. kind ≡ ByTable
        (table_number (layout_seen layout.now).model ((call.now).table).name)
        (map (rules.binding_at (layout_seen layout.now) (site_seen site.now) ((call.now).table).name)
        (map syntax.binding_of (call.now).bindings))) }
{
    let table = call.table.name.bytes();
    let columns = bindings_at(alloc, layout, site, table, call.bindings.as_slice())?;
    Ok(Kind::ByTable {
        table: layout.table_number(table),
        columns,
    })
}

/// What a restriction demands at a site, as a kind of rule. The terms that it relates get numbers.
pub fn demand_at(
    alloc: Global,
    layout: &Layout<'_, '_>,
    site: &Site<'_, '_, '_, '_>,
    demand: &Demand,
    trees: &mut Trees,
) -> Result<Kind, AllocError>
    ensures { IfOk result (λ kind. IsDemanded (kept trees.old) (rules.demand_at (layout_seen layout.now)
        (site_seen site.now) (syntax.demand_of demand.now)) kind (kept trees.new)) }
{
    match demand {
        Demand::Relation(relation) => of_relation(alloc, layout, site, relation, trees),
        Demand::Table(call) => of_call(alloc, layout, site, call.get()),
        Demand::False => Ok(Kind::Never),
    }
}
