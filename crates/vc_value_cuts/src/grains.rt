//! Ascending grains that are cut one cut after another.

ghost use Rattle.std.specs.Prelude.{◌≡◌, IfOk, IsTrue, OnErr, OnOk};
ghost use Rattle.vc_value.specs.Grains.{cut_at, is_ascending};

use crate::cut::{Cut, put_grains};
use std::alloc::{AllocError, Global};
use std::marker::Model;
use vc_value::{Dec, Grain, GrainList};

/// Grains that ascend and share no number, which a contract sees as their list. A cut that was made
/// already costs a search by halves; a new one goes over all grains.
#[derive(Debug, Drop)]
pub struct CutGrains {
    grains: Vec<Grain>,
}

impl Model for CutGrains {
    ghost use Rattle.std.specs.Prelude.{List, IsTrue};
    ghost use Rattle.vc_value.specs.declared.grains.Grain.{Grain};
    ghost use Rattle.vc_value.specs.Grains.{is_ascending};

    ghost Value = { List Grain };

    ghost view = { λ l. l.grains.items };

    ghost invariant = { λ l. IsTrue (is_ascending l.grains.items) };
}

// The grains as a list. No text has too many grains for one.
fn listed(alloc: Global, grains: &[Grain]) -> Result<GrainList, AllocError>
    requires { IsTrue (is_ascending grains.now) }
    ensures { IfOk result (λ list. list ≡ grains.now) }
{
    let mut list = GrainList::new(alloc);
    for grain in grains {
        if list.is_full() {
            return Err(AllocError);
        }
        list.add(*grain)?;
    }
    Ok(list)
}

impl CutGrains {
    /// The grains of the list, uncut.
    pub fn new(alloc: Global, list: &GrainList) -> Result<CutGrains, AllocError>
        ensures { IfOk result (λ grains. grains ≡ list.now) }
    {
        let mut grains = Vec::new(alloc);
        put_grains(&mut grains, list)?;
        Ok(CutGrains { grains })
    }

    /// Cuts at a number. After an error the grains are as before.
    pub fn cut(&mut self, alloc: Global, decimals: u8, at: Dec) -> Result<(), AllocError>
        ensures ok { OnOk result (self.new ≡ cut_at decimals at self.old) }
        ensures err { OnErr result (self.new ≡ self.old) }
    {
        let cut = Cut::new(decimals, at);
        if !cut.is_made(&self.grains) {
            let grains = cut.of(alloc, &self.grains)?;
            self.grains = grains;
        }
        Ok(())
    }

    /// The grains as a list.
    pub fn to_list(&self, alloc: Global) -> Result<GrainList, AllocError>
        ensures { IfOk result (λ list. list ≡ self.now) }
    {
        listed(alloc, &self.grains)
    }
}
