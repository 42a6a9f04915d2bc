//! Which variables statements write.

ghost use Rattle.std.specs.Prelude.{◌≡◌, ◌++◌, map, OnOk, IfOk};
ghost use Rattle.std.specs.List.{flat_map};
ghost use Rattle.vc_plan.specs.LookUps.{action_writes};
ghost use Rattle.vc_net.specs.Differing.{AreAllWritten};
ghost use Rattle.vc_session_evaluation.specs.Writing.{all_written, procedure_written, statement_written};

use std::alloc::{AllocError, Global};
use vc_plan::{Action, FilledColumn, Plan, Procedure, Statement};
use vc_value::Listed;

/// The variables that statements of the plan write, each as often as one does.
pub fn all_written(alloc: Global, plan: &Plan) -> Result<Listed<u32>, AllocError>
    ensures is { IfOk result (λ vars. vars ≡ all_written plan.now) }
    ensures all { IfOk result (λ vars. AreAllWritten plan.now vars) }
{
    let mut vars = Listed::new(alloc);
    put_procedures(plan.procedures.as_slice(), &mut vars)?;
    Ok(vars)
}

fn put_procedures(procedures: &[Procedure], vars: &mut Listed<u32>) -> Result<(), AllocError>
    ensures { OnOk result (vars.new ≡ vars.old ++ flat_map procedure_written procedures.now) }
{
    for procedure in procedures {
        put_statements(procedure.statements.as_slice(), vars)?;
    }
    Ok(())
}

fn put_statements(statements: &[Statement], vars: &mut Listed<u32>) -> Result<(), AllocError>
    ensures { OnOk result (vars.new ≡ vars.old ++ flat_map statement_written statements.now) }
{
    for statement in statements {
        put_action(&statement.action, vars)?;
    }
    Ok(())
}

fn put_action(action: &Action, vars: &mut Listed<u32>) -> Result<(), AllocError>
    ensures { OnOk result (vars.new ≡ vars.old ++ action_writes action.now) }
{
    match action {
        Action::Assign { var, term: _ } => vars.push(*var),
        Action::SetDefault { var, term: _ } => vars.push(*var),
        Action::DeleteDefault { var: _, term: _ } => Ok(()),
        Action::LookUp {
            table: _,
            keys: _,
            filled,
        } => put_columns(filled.as_slice(), vars),
    }
}

fn put_columns(columns: &[FilledColumn], vars: &mut Listed<u32>) -> Result<(), AllocError>
    ensures { OnOk result (vars.new ≡ vars.old ++ map (λ column. column.var) columns.now) }
{
    for column in columns {
        vars.push(column.var)?;
    }
    Ok(())
}
