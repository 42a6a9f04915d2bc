//! Of each variable the user's value, and the entry that a statement wrote.

ghost use Rattle.std.specs.Prelude.{◌≡◌, length, replicate, None, IfOk};

use std::alloc::{AllocError, Global};
use std::marker::Model;
use vc_plan::{Mark, Plan};
use vc_value::{Listed, Value};

/// Of each variable of a plan the user's value, if there is one, and what a statement wrote, if
/// one did: the mark, the number of the procedure and the number of its statement. All memory is
/// taken at `new`.
#[derive(Debug, Drop)]
pub struct Sources {
    users: Listed<Option<Value>>,
    entries: Listed<Option<(Mark, u32, u32)>>,
}

impl Model for Sources {
    ghost use Rattle.std.specs.Prelude.{map, option_map};
    ghost use Rattle.vc_plan.specs.Sources.{Sources};
    ghost use Rattle.vc_plan_sources.specs.Changes.{entry_from};

    ghost Value = { Sources };

    ghost view = { λ s. record { user = s.users; written = map (option_map entry_from) s.entries } };
}

impl Sources {
    ghost use Rattle.std.specs.Prelude.{◌≡◌, ◌<◌, length, option_map, IfOk};
    ghost use Rattle.vc_plan.specs.Sources.{user_of, entry_of};
    ghost use Rattle.vc_plan_sources.specs.Changes.{entry_from, no_sources, with_user, with_entry};

    /// The sources of the plan's variables, none of which has a value or an entry.
    pub fn new(alloc: Global, plan: &Plan) -> Result<Sources, AllocError>
        ensures { IfOk result (λ sources. sources ≡ no_sources (length plan.now.vars)) }
    {
        let users = nothing_for(alloc, plan.vars.len())?;
        let entries = nothing_for(alloc, plan.vars.len())?;
        Ok(Sources { users, entries })
    }

    /// The user's value of the variable, if there is one.
    pub fn user(&self, var: u32) -> Option<Value>
        ensures { result ≡ user_of self.now var }
    {
        match self.users.as_slice().get(var as usize) {
            Some(value) => *value,
            None => None,
        }
    }

    /// What was written to the variable, if anything was: the mark, and the numbers of the
    /// procedure and of its statement.
    pub fn written(&self, var: u32) -> Option<(Mark, u32, u32)>
        ensures { option_map entry_from result ≡ entry_of self.now var }
    {
        match self.entries.as_slice().get(var as usize) {
            Some(entry) => *entry,
            None => None,
        }
    }

    /// Makes this the user's value of the variable, or leaves it none.
    pub fn set_user(&mut self, var: u32, value: Option<Value>)
        requires { var < length self.old.user }
        ensures { self.new ≡ with_user self.old var value }
    {
        self.users.set(var as usize, value);
    }

    /// Makes this what was written to the variable, or leaves it nothing.
    pub fn set_written(&mut self, var: u32, entry: Option<(Mark, u32, u32)>)
        requires { var < length self.old.written }
        ensures { self.new ≡ with_entry self.old var (option_map entry_from entry) }
    {
        self.entries.set(var as usize, entry);
    }

    /// Makes these the sources that the others are, of as many variables. It takes no memory.
    pub fn copy_from(&mut self, other: &Sources)
        requires users { length self.old.user ≡ length other.now.user }
        requires entries { length self.old.written ≡ length other.now.written }
        ensures { self.new ≡ other.now }
    {
        copy_all(&mut self.users, other.users.as_slice());
        copy_all(&mut self.entries, other.entries.as_slice());
    }
}

// Puts each element in the place of another.
fn copy_all<T: Copy + Drop>(list: &mut Listed<T>, from: &[T])
    requires { length list.old ≡ length from.now }
    ensures { list.new ≡ from.now }
{
    for place in 0..from.len() {
        list.set(place, from[place]);
    }
}

// Nothing, so many times.
fn nothing_for<T: Drop>(alloc: Global, count: usize) -> Result<Listed<Option<T>>, AllocError>
    ensures { IfOk result (λ list. list ≡ replicate count None) }
{
    let mut list = Listed::new(alloc);
    for place in 0..count {
        list.push(None)?;
    }
    Ok(list)
}
