//! Texts that are kept in a database file, or in memory for this run alone.

ghost use Rattle.std.specs.Prelude.{◌≡◌, ◌≤◌, IfOk, IfErr, IsErrOf, is_some};
ghost use Rattle.vc_outside.specs.Keepers.{RaisesFor};

use sqlite::{File, FileStore};
use std::marker::Model;
use vc_outside::{KeepFault, Keeper, KeptTexts, copied_name};
use vc_store_sqlite_file::{Open, SavedTexts};
use vc_value::Word;

/// Texts in a database of a store that a path opens, of which it tells nothing; or in memory for this run alone, and
/// then it tells them.
pub struct SqlKeeper<S: Open> {
    rt: HostRuntime,
    run: KeptTexts,
    // Keeps texts in the place of the run's, where there is one.
    file: Option<SavedTexts<S>>,
    begun: Option<Option<Vec<u8>>>,
    faults: u64,
}

/// Texts in a database file, or in memory for this run alone.
pub type FileKeeper = SqlKeeper<FileStore<File>>;

impl<S: Open> Model for SqlKeeper<S> {
    ghost use Rattle.std.specs.Coded.{codes};
    ghost use Rattle.std.specs.FinMap.{code};
    ghost use Rattle.std.specs.Prelude.{is_some, option_map};
    ghost use Rattle.vc_store_sqlite.specs.Keeping.{Told};

    ghost Value = { Told };

    ghost coded = { Prim.hlevel (codes, code) };

    ghost view = { λ k. record {
      run = k.run;
      in_file = is_some k.file;
      begun = option_map (λ name. option_map (λ bytes. bytes.items) name) k.begun;
      faults = k.faults;
    } };
}

// By hand, as a derived one is proved again, with all of its parts, in each crate that drops such a keeper.
impl<S: Open> Drop for SqlKeeper<S> {
    fn drop(self) {
        let SqlKeeper {
            rt,
            run,
            file,
            begun,
            faults: _,
        } = self;
        drop(rt);
        drop(run);
        drop(file);
        drop(begun);
    }
}

impl<S: Open> SqlKeeper<S> {
    ghost use Rattle.std.specs.FinMap.{empty};
    ghost use Rattle.std.specs.Prelude.{◌≡◌, false, None};

    /// A keeper of nothing that isn't begun.
    pub fn new(rt: HostRuntime) -> SqlKeeper<S>
        ensures { result ≡ record { run = empty; in_file = false; begun = None; faults = 0 } }
    {
        SqlKeeper {
            run: KeptTexts::new(rt.alloc()),
            rt,
            file: None,
            begun: None,
            faults: 0,
        }
    }
}

// Why it refuses: each fault but want of memory is counted.
fn raise(faults: &mut u64, fault: KeepFault) -> KeepFault
    ensures later { faults.old ≤ faults.new }
    ensures raises { RaisesFor faults.old faults.new result }
    ensures same { result ≡ fault }
{
    match fault {
        KeepFault::OutOfMemory => {}
        KeepFault::Failed => *faults = faults.saturating_add(1),
    }
    fault
}

// The texts in the database of this path, if there is a path.
fn opened<S: Open>(rt: &HostRuntime, path: Option<&str>) -> Result<Option<SavedTexts<S>>, KeepFault>
    ensures { IfOk result (λ file. is_some file ≡ is_some path.entry) }
{
    match path {
        Some(path) => Ok(Some(SavedTexts::open(rt, path)?)),
        None => Ok(None),
    }
}

impl<S: Open> Keeper for SqlKeeper<S> {
    ghost use Rattle.vc_store_sqlite.specs.Keeping.{opened_texts, told_texts};

    ghost texts = { told_texts };

    ghost opens = { opened_texts };

    ghost begun = { λ k. k.begun };

    ghost faults = { λ k. k.faults };

    fn begin(&mut self, name: Option<&str>) -> Result<(), KeepFault> {
        let copy = copied_name(self.rt.alloc(), name)?;
        match opened(&self.rt, name) {
            Ok(file) => {
                self.file = file;
                self.begun = Some(copy);
                Ok(())
            }
            Err(fault) => Err(raise(&mut self.faults, fault)),
        }
    }

    fn put(&mut self, name: &[u8], text: &[u8]) -> Result<(), KeepFault> {
        match &mut self.file {
            Some(file) => match file.put(name, text) {
                Ok(()) => Ok(()),
                Err(fault) => Err(raise(&mut self.faults, fault)),
            },
            None => {
                self.run.put(self.rt.alloc(), name, text)?;
                Ok(())
            }
        }
    }

    fn get(&mut self, name: &[u8]) -> Result<Option<Word>, KeepFault> {
        match &mut self.file {
            Some(file) => match file.get(name) {
                Ok(found) => Ok(found),
                Err(fault) => Err(raise(&mut self.faults, fault)),
            },
            None => match self.run.find(name) {
                Some(text) => Ok(Some(Word::from_bytes(self.rt.alloc(), text.bytes())?)),
                None => Ok(None),
            },
        }
    }

    fn remove(&mut self, name: &[u8]) -> Result<bool, KeepFault> {
        match &mut self.file {
            Some(file) => match file.remove(name) {
                Ok(there) => Ok(there),
                Err(fault) => Err(raise(&mut self.faults, fault)),
            },
            None => Ok(self.run.remove(name)),
        }
    }
}
