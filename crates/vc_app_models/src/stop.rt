//! Why a model has no plan to be asked.

ghost use Rattle.std.specs.Prelude.{◌≡◌};
ghost use Rattle.vc_app_models.specs.declared.stop.ModelStop.TheVariants as stops;

use std::alloc::AllocError;
use vc_compile_plan::CompileFault;
use vc_model_faults::ModelFaultKind;
use vc_outside::FileFault;
use vc_table::TableFault;
use vc_value::Word;

/// Why a model has no plan: the first thing that is wrong, in the order in which a model is read.
#[derive(Debug, Drop)]
pub enum ModelStop {
    /// The model's file was not read.
    Unread(FileFault),
    /// The text spells no model.
    TextRefused { kind: ModelFaultKind, line: u32 },
    /// The file of a table was not read.
    TableUnread { file: Word, fault: FileFault },
    /// The file of this table has no rows of it.
    TableRefused { table: Word, fault: TableFault },
    /// The model has no plan.
    Uncompiled(CompileFault),
    /// Memory is wanting.
    OutOfMemory,
}

impl From<AllocError> for ModelStop {
    ghost from_gives = { λ _ stop. stop ≡ stops.OutOfMemory };

    fn from(_error: AllocError) -> ModelStop {
        ModelStop::OutOfMemory
    }
}
