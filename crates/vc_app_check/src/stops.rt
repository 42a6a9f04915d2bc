//! The exit status where a model has no plan.

ghost use Rattle.std.specs.Prelude.{◌≡◌};
ghost use Rattle.vc_app_check.specs.Statuses as statuses;

use vc_app_models::ModelStop;
use vc_compile_plan::CompileFault;
use vc_outside::FileFault;
use vc_table::TableFault;

/// The status where a file was not read.
pub fn file_status(fault: FileFault) -> u8
    ensures { result ≡ statuses.file_status fault }
{
    match fault {
        FileFault::Missing => 3,
        FileFault::Failed => 4,
        FileFault::TooLarge => 11,
        FileFault::OutOfMemory => 8,
    }
}

fn table_status(fault: TableFault) -> u8
    ensures { result ≡ statuses.table_status fault }
{
    match fault {
        TableFault::Columns { row: _ }
        | TableFault::Cell { row: _ }
        | TableFault::DoubleKey { row: _ }
        | TableFault::TooManyRows => 2,
        TableFault::OutOfMemory => 8,
    }
}

fn compile_status(fault: CompileFault) -> u8
    ensures { result ≡ statuses.compile_status fault }
{
    match fault {
        CompileFault::TooDeep
        | CompileFault::TooManySlots
        | CompileFault::TooManyRules
        | CompileFault::TooManyAtoms
        | CompileFault::TooManyCells
        | CompileFault::Typing { .. } => 2,
        CompileFault::OutOfMemory => 8,
    }
}

/// The status: 2 where the text, a table or the model is refused, 3 where a file is missing, 4 where the shelf failed,
/// 11 where a file is too large, and 8 for want of memory.
pub fn stop_status(stop: &ModelStop) -> u8
    ensures { result ≡ statuses.stop_status stop.now }
{
    match stop {
        ModelStop::Unread(fault) => file_status(*fault),
        ModelStop::TextRefused { .. } => 2,
        ModelStop::TableUnread { file: _, fault } => file_status(*fault),
        ModelStop::TableRefused { table: _, fault } => table_status(*fault),
        ModelStop::Uncompiled(fault) => compile_status(*fault),
        ModelStop::OutOfMemory => 8,
    }
}
