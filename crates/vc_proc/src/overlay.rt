//! What stands for variables beside the stages.

ghost use Rattle.std.specs.Prelude.{◌≡◌, length, replicate, None, IfOk};

use std::alloc::{AllocError, Global};
use std::marker::Model;
use vc_plan::{Mark, Plan};
use vc_rule_readings::Marks;
use vc_value::Listed;

/// What a statement wrote to a variable: the value that it has or that it can't have, hard or as a default.
#[derive(Clone, Copy, Debug, PartialEq, Eq)]
pub struct Written {
    pub mark: Mark,
    pub hard: bool,
    pub proc: u32,
    pub statement: u32,
}

/// Of each variable of a plan what stands for it, if anything was written. All memory is taken at `new`.
#[derive(Drop)]
pub struct Overlay {
    entries: Listed<Option<Written>>,
}

impl Model for Overlay {
    ghost use Rattle.std.specs.Prelude.{map, option_map};
    ghost use Rattle.vc_plan.specs.Entries.{Entries};
    ghost use Rattle.vc_proc.specs.Overlays.{written_from};

    ghost Value = { Entries };

    ghost view = { λ o. map (option_map written_from) o.entries };
}

impl Overlay {
    ghost use Rattle.std.specs.Prelude.{◌≡◌, length, option_map, replicate, IfOk, None};
    ghost use Rattle.vc_plan.specs.Entries.{no_entries, with_entry, written_at};
    ghost use Rattle.vc_proc.specs.Overlays.{written_from};

    /// Nothing written to the plan's variables.
    pub fn new(alloc: Global, plan: &Plan) -> Result<Overlay, AllocError>
        ensures { IfOk result (λ overlay. overlay ≡ no_entries plan.now) }
    {
        Ok(Overlay {
            entries: nothing_for(alloc, plan.vars.len())?,
        })
    }

    /// What stands for the variable, if anything does.
    pub fn entry(&self, var: u32) -> Option<Written>
        ensures { option_map written_from result ≡ written_at self.now var }
    {
        match self.entries.as_slice().get(var as usize) {
            Some(written) => *written,
            None => None,
        }
    }

    /// Makes this what stands for the variable, or leaves it nothing. Where there is no such variable nothing changes.
    pub fn enter(&mut self, var: u32, written: Option<Written>)
        ensures { self.new ≡ with_entry var (option_map written_from written) self.old }
    {
        if (var as usize) < self.entries.len() {
            self.entries.set(var as usize, written);
        }
    }

    /// Takes all away.
    pub fn clear(&mut self)
        ensures { self.new ≡ replicate (length self.old) None }
    {
        clear_all(&mut self.entries);
    }
}

impl Marks for Overlay {
    ghost entries = { λ s. s };

    fn mark(&self, var: u32) -> Option<Mark> {
        match self.entry(var) {
            Some(written) => Some(written.mark),
            None => None,
        }
    }
}

// Nothing, so many times.
fn nothing_for(alloc: Global, count: usize) -> Result<Listed<Option<Written>>, AllocError>
    ensures { IfOk result (λ list. list ≡ replicate count None) }
{
    let mut list = Listed::new(alloc);
    for place in 0..count {
        list.push(None)?;
    }
    Ok(list)
}

fn clear_all(entries: &mut Listed<Option<Written>>)
    ensures { entries.new ≡ replicate (length entries.old) None }
{
    for place in 0..entries.len() {
        entries.set(place, None);
    }
}
