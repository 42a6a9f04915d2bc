//! Orders of a plan's tables that sessions share.

ghost use Rattle.std.specs.Prelude.{◌≡◌, IfOk};
ghost use Rattle.vc_plan.specs.Valid.{IsValid};
ghost use Rattle.vc_session_evaluation.specs.Sharing.{AreAllLookUpsOf};

use std::alloc::{AllocError, Global};
use std::marker::Model;
use std::rc::Rc;
use vc_plan::Plan;
use vc_proc_look_ups::LookUps;

/// The orders by which a plan's statements look rows up, of which there is one copy however many share them. A contract
/// sees them as they are.
pub struct SharedLookUps {
    inner: Rc<LookUps>,
}

// By hand, as a derived one is proved again, with all of its parts, in each crate that drops such orders.
impl Drop for SharedLookUps {
    fn drop(self) {
        let SharedLookUps { inner } = self;
        drop(inner);
    }
}

impl Model for SharedLookUps {
    ghost use Rattle.vc_proc_look_ups.specs.declared.look_ups.LookUps.{LookUps};

    ghost Value = { LookUps };

    ghost view = { λ s. s.inner.value };
}

impl SharedLookUps {
    ghost use Rattle.std.specs.Prelude.{◌≡◌, IfOk};
    ghost use Rattle.vc_plan.specs.Valid.{IsValid};
    ghost use Rattle.vc_session_evaluation.specs.Sharing.{AreAllLookUpsOf};

    /// The orders of a plan's tables, which no one shares yet.
    #[tactic(auto, using(crate::proofs::RowLimits::rows_fit))]
    pub fn new(alloc: Global, plan: &Plan) -> Result<SharedLookUps, AllocError>
        requires { IsValid plan.now }
        ensures { IfOk result (AreAllLookUpsOf plan.now) }
    {
        let look_ups = LookUps::new(alloc, plan)?;
        let inner = Rc::new(alloc, look_ups)?;
        Ok(SharedLookUps { inner })
    }

    /// The same for one more. It takes no memory, and is refused only where as many share them as can be counted.
    pub fn share(&self) -> Result<SharedLookUps, AllocError>
        ensures { IfOk result (λ shared. shared ≡ self.now) }
    {
        let inner = self.inner.clone()?;
        Ok(SharedLookUps { inner })
    }

    /// The orders.
    pub fn orders(&self) -> &LookUps
        ensures { result.now ≡ self.now }
    {
        self.inner.as_ref()
    }
}
