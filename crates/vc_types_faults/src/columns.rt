//! Faults of look-ups: the columns that a procedure's call of a table names.

ghost use Rattle.std.specs.Prelude.{◌≡◌, ◌||◌, not, option_copied};
ghost use Rattle.std.specs.List.{list_any};
ghost use Rattle.vc_syntax_tree.specs.Trees.{binding_of, table_call_of, term_of};
ghost use Rattle.vc_types.specs.Looking.{characteristic_named, table_named};
ghost use Rattle.vc_types.specs.PlaceFaults as faults;
ghost use Rattle.vc_types_faults.specs.Terms.{is_itself};
ghost use Rattle.vc_types_meanings.specs.Seen.{seen};
ghost use Rattle.vc_types_occurrences.specs.Seen.{calls_seen};

use vc_model_parts::{Table, TableColumn};
use vc_syntax_tree::{Binding, Operand, Owner, TableCall, Term};
use vc_types_meanings::Setting;

fn is_other(column: Option<TableColumn>) -> bool
    ensures { result ≡ faults.is_other column }
{
    match column {
        Some(column) => !column.key,
        None => false,
    }
}

/// The column that a call's binding names.
pub fn bound_column(setting: &Setting, call: &TableCall, binding: &Binding) -> Option<TableColumn>
    ensures { result ≡ faults.bound_column (seen setting.now) (table_call_of call.now) (binding_of binding.now) }
{
    let names = setting.names();
    let table = names.table(call.table.name.bytes());
    names.column_in(binding.column.name.bytes(), table)
}

fn is_number(number: u32, other: Option<u32>) -> bool
    ensures { result ≡ faults.is_number number other }
{
    match other {
        Some(other) => number == other,
        None => false,
    }
}

fn names_it(setting: &Setting, column: TableColumn, binding: &Binding) -> bool
    ensures { result ≡ faults.is_number column.characteristic
        (characteristic_named (seen setting.now).model (binding_of binding.now).column.name) }
{
    is_number(
        column.characteristic,
        setting.names().characteristic(binding.column.name.bytes()),
    )
}

fn names_column(setting: &Setting, call: &TableCall, column: TableColumn) -> bool
    ensures { result ≡ faults.names_column (seen setting.now) (table_call_of call.now) column }
{
    let bindings = call.bindings.as_slice();
    for binding in bindings {
        if names_it(setting, column, binding) {
            return true;
        }
    }
    false
}

fn lacks_key(setting: &Setting, call: &TableCall, column: TableColumn) -> bool
    ensures { result ≡ faults.lacks_key (seen setting.now) (table_call_of call.now) column }
{
    column.key && !names_column(setting, call, column)
}

fn is_own(term: &Term) -> bool
    ensures { result ≡ faults.is_own (term_of term.now) }
{
    match term {
        Term::Operand(operand) => is_itself(operand),
        _ => false,
    }
}

fn is_itself(operand: &Operand) -> bool
    ensures { result ≡ is_itself operand.now }
{
    match operand {
        Operand::Owned(Owner::Itself, _) => true,
        _ => false,
    }
}

fn gives_other(setting: &Setting, call: &TableCall, binding: &Binding) -> bool
    ensures { result ≡ faults.gives_other (seen setting.now) (table_call_of call.now) (binding_of binding.now) }
{
    is_other(bound_column(setting, call, binding)) && !is_own(&binding.value)
}

fn has_key(columns: &[TableColumn]) -> bool
    ensures { result ≡ list_any (λ column. column.key) columns.now }
{
    columns.iter().any(|column| column.key)
}

fn lacks_some_key(setting: &Setting, call: &TableCall, columns: &[TableColumn]) -> bool
    ensures { result ≡ list_any (faults.lacks_key (seen setting.now) (table_call_of call.now)) columns.now }
{
    columns
        .iter()
        .any(|column| lacks_key(setting, call, *column))
}

fn binds_other(setting: &Setting, call: &TableCall, binding: &Binding) -> bool
    ensures { result ≡ faults.is_other (faults.bound_column (seen setting.now) (table_call_of call.now)
        (binding_of binding.now)) }
{
    is_other(bound_column(setting, call, binding))
}

fn binds_some_other(setting: &Setting, call: &TableCall) -> bool
    ensures { result ≡ list_any (λ binding. faults.is_other
        (faults.bound_column (seen setting.now) (table_call_of call.now) binding))
        (table_call_of call.now).bindings }
{
    let bindings = call.bindings.as_slice();
    for binding in bindings {
        if binds_other(setting, call, binding) {
            return true;
        }
    }
    false
}

fn gives_some_other(setting: &Setting, call: &TableCall) -> bool
    ensures { result ≡ list_any (faults.gives_other (seen setting.now) (table_call_of call.now))
        (table_call_of call.now).bindings }
{
    let bindings = call.bindings.as_slice();
    for binding in bindings {
        if gives_other(setting, call, binding) {
            return true;
        }
    }
    false
}

fn looks_up_wrongly(setting: &Setting, call: &TableCall, table: Option<&Table>) -> bool
    ensures { result ≡ faults.looks_up_wrongly (seen setting.now) (table_call_of call.now) (option_copied table.entry) }
{
    match table {
        Some(table) => {
            let columns = table.columns.as_slice();
            lacks_keys(setting, call, columns) || gives_wrongly(setting, call)
        }
        None => false,
    }
}

fn lacks_keys(setting: &Setting, call: &TableCall, columns: &[TableColumn]) -> bool
    ensures { result ≡ (not (list_any (λ column. column.key) columns.now)
        || list_any (faults.lacks_key (seen setting.now) (table_call_of call.now)) columns.now) }
{
    !has_key(columns) || lacks_some_key(setting, call, columns)
}

fn gives_wrongly(setting: &Setting, call: &TableCall) -> bool
    ensures { result ≡ (not (list_any (λ binding. faults.is_other
        (faults.bound_column (seen setting.now) (table_call_of call.now) binding))
        (table_call_of call.now).bindings)
        || list_any (faults.gives_other (seen setting.now) (table_call_of call.now))
        (table_call_of call.now).bindings) }
{
    !binds_some_other(setting, call) || gives_some_other(setting, call)
}

fn is_wrong_look_up(setting: &Setting, call: &TableCall) -> bool
    ensures { result ≡ faults.looks_up_wrongly (seen setting.now) (table_call_of call.now)
        (table_named (seen setting.now).model (table_call_of call.now).table.name) }
{
    looks_up_wrongly(
        setting,
        call,
        setting.names().table(call.table.name.bytes()),
    )
}

/// Whether some call of a procedure is a wrong look-up.
pub fn some_wrong_look_up(setting: &Setting, calls: &[&TableCall]) -> bool
    ensures { result ≡ list_any (λ call. faults.looks_up_wrongly (seen setting.now) call
        (table_named (seen setting.now).model call.table.name)) (calls_seen calls.now) }
{
    for call in calls {
        if is_wrong_look_up(setting, *call) {
            return true;
        }
    }
    false
}
