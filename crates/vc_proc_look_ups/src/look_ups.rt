//! The orders of rows that a plan's statements look up by.

ghost use Rattle.std.specs.Prelude.{◌≡◌, ◌^◌, nat_lt, true, length, IfNone, IfOk, IfSome, None, OnOk, Some};
ghost use Rattle.std.specs.List.{find, list_all};
ghost use Rattle.vc_proc_look_ups.specs.LookUps.{AreOrdersIn, IsOrderIn, Puts, has_order, serves, serves_procedure};
ghost use Rattle.vc_proc_look_ups.specs.LookUps.{serves_statement};
ghost use Rattle.vc_proc_look_ups.specs.Orders.{is_for};

use crate::orders::{Order, columns_of, order_of};
use std::alloc::{AllocError, Global};
use vc_plan::{Action, KeyTerm, Plan, Procedure, Statement};
use vc_rule_table::rows::rows_of;
use vc_value::Listed;

/// For each table, and the columns by which statements of a plan look its rows up, the rows in the order of their cells
/// there: statements that look up by the same share one.
#[derive(Debug, Drop)]
pub struct LookUps {
    pub orders: Listed<Order>,
}

// The first order of the table by the keys.
fn find_order<'a>(orders: &'a [Order], table: u32, keys: &[KeyTerm]) -> Option<&'a Order>
    ensures some { IfSome result (λ order. find (is_for table keys.now) orders.now ≡ Some order.now) }
    ensures none { IfNone result (find (is_for table keys.now) orders.now ≡ None) }
{
    let mut rest = orders;
    while let [order, more @ ..] = rest {
        if order.is_for(table, keys) {
            return Some(order);
        }
        rest = more;
    }
    None
}

fn new_order(alloc: Global, plan: &Plan, table: u32, keys: &[KeyTerm]) -> Result<Order, AllocError>
    requires few { list_all (λ table. nat_lt (length table.rows) (2 ^ 32)) plan.now.tables ≡ true }
    ensures right { IfOk result (λ order. IsOrderIn plan.now order) }
    ensures own { IfOk result (λ order. is_for table keys.now order ≡ true) }
{
    let columns = columns_of(alloc, keys)?;
    let rows = order_of(alloc, rows_of(plan, table), columns.as_slice())?;
    Ok(Order {
        table,
        columns,
        rows,
    })
}

fn put_order(
    alloc: Global,
    plan: &Plan,
    table: u32,
    keys: &[KeyTerm],
    orders: &mut Listed<Order>,
) -> Result<(), AllocError>
    requires few { list_all (λ table. nat_lt (length table.rows) (2 ^ 32)) plan.now.tables ≡ true }
    requires of { AreOrdersIn plan.now orders.old }
    ensures { OnOk result (Puts plan.now orders.old orders.new (has_order table keys.now orders.new)) }
{
    let order = new_order(alloc, plan, table, keys)?;
    orders.push(order)?;
    Ok(())
}

// An order that is there already serves this statement too.
fn put_look_up(
    alloc: Global,
    plan: &Plan,
    table: u32,
    keys: &[KeyTerm],
    orders: &mut Listed<Order>,
) -> Result<(), AllocError>
    requires few { list_all (λ table. nat_lt (length table.rows) (2 ^ 32)) plan.now.tables ≡ true }
    requires of { AreOrdersIn plan.now orders.old }
    ensures { OnOk result (Puts plan.now orders.old orders.new (has_order table keys.now orders.new)) }
{
    match find_order(orders.as_slice(), table, keys) {
        Some(_) => Ok(()),
        None => put_order(alloc, plan, table, keys, orders),
    }
}

fn put_action(
    alloc: Global,
    plan: &Plan,
    action: &Action,
    orders: &mut Listed<Order>,
) -> Result<(), AllocError>
    requires few { list_all (λ table. nat_lt (length table.rows) (2 ^ 32)) plan.now.tables ≡ true }
    requires of { AreOrdersIn plan.now orders.old }
    ensures { OnOk result (Puts plan.now orders.old orders.new (serves orders.new action.now)) }
{
    match action {
        Action::Assign { var: _, term: _ } => Ok(()),
        Action::SetDefault { var: _, term: _ } => Ok(()),
        Action::DeleteDefault { var: _, term: _ } => Ok(()),
        Action::LookUp {
            table,
            keys,
            filled: _,
        } => put_look_up(alloc, plan, *table, keys.as_slice(), orders),
    }
}

fn put_statements(
    alloc: Global,
    plan: &Plan,
    statements: &[Statement],
    orders: &mut Listed<Order>,
) -> Result<(), AllocError>
    requires few { list_all (λ table. nat_lt (length table.rows) (2 ^ 32)) plan.now.tables ≡ true }
    requires of { AreOrdersIn plan.now orders.old }
    ensures { OnOk result (Puts plan.now orders.old orders.new (list_all (serves_statement orders.new)
        statements.now)) }
{
    for statement in 0..statements.len() {
        put_action(alloc, plan, &statements[statement].action, orders)?;
    }
    Ok(())
}

fn put_procedures(
    alloc: Global,
    plan: &Plan,
    procedures: &[Procedure],
    orders: &mut Listed<Order>,
) -> Result<(), AllocError>
    requires few { list_all (λ table. nat_lt (length table.rows) (2 ^ 32)) plan.now.tables ≡ true }
    requires of { AreOrdersIn plan.now orders.old }
    ensures { OnOk result (Puts plan.now orders.old orders.new (list_all (serves_procedure orders.new)
        procedures.now)) }
{
    for procedure in 0..procedures.len() {
        put_statements(
            alloc,
            plan,
            procedures[procedure].statements.as_slice(),
            orders,
        )?;
    }
    Ok(())
}

impl LookUps {
    ghost use Rattle.std.specs.Prelude.{◌≡◌, ◌^◌, nat_lt, true, length, IfNone, IfOk, IfSome, None, Some};
    ghost use Rattle.std.specs.List.{find, list_all};
    ghost use Rattle.vc_proc_look_ups.specs.LookUps.{AreLookUpsOf, serves_procedure};
    ghost use Rattle.vc_proc_look_ups.specs.Orders.{is_for};

    /// The orders by which the plan's statements look rows up: one for each. It takes 4 bytes for each row of a table
    /// and list of key columns.
    pub fn new(alloc: Global, plan: &Plan) -> Result<LookUps, AllocError>
        requires few { list_all (λ table. nat_lt (length table.rows) (2 ^ 32)) plan.now.tables ≡ true }
        ensures of { IfOk result (λ look_ups. AreLookUpsOf plan.now look_ups) }
        ensures all { IfOk result (λ look_ups. list_all (serves_procedure look_ups.orders) plan.now.procedures ≡ true) }
    {
        let mut orders = Listed::new(alloc);
        put_procedures(alloc, plan, plan.procedures.as_slice(), &mut orders)?;
        Ok(LookUps { orders })
    }

    /// The order of the table's rows by the columns of the keys, if it is there.
    pub fn order_for(&self, table: u32, keys: &[KeyTerm]) -> Option<&Order>
        ensures some { IfSome result (λ order. find (is_for table keys.now) self.now.orders ≡ Some order.now) }
        ensures none { IfNone result (find (is_for table keys.now) self.now.orders ≡ None) }
    {
        find_order(self.orders.as_slice(), table, keys)
    }
}
