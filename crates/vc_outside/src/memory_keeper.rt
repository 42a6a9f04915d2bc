//! A keeper in memory, for tests and for runs that keep nothing.

ghost use Rattle.std.specs.Prelude.{◌≡◌, ◌++◌, ◌∷◌, [], None, Some, IsSome, IfOk, OnOk, OnErr, is_some, option_map};
ghost use Rattle.std.specs.FinMap.{empty, get, insert, remove};
ghost use Rattle.std.specs.Option.{option_copied};
ghost use Rattle.vc_outside.specs.Faults.{faults_of, next_fails, with_call};
ghost use Rattle.vc_outside.specs.Keepers.{Begins, Forgets, HasKeepCause, Opens, Puts, Tells};
ghost use Rattle.vc_outside.specs.MemoryKeepers.{is_failed};

use crate::fault::Failures;
use crate::keeper::{KeepFault, Keeper, copied_name};
use std::alloc::{AllocError, Global};
use std::collections::BTreeMap;
use std::marker::Model;
use vc_value::Word;

/// Texts by their names, which a contract sees as a finite map.
#[derive(Drop)]
pub struct KeptTexts {
    by_name: BTreeMap<Vec<u8>, Word>,
}

impl Model for KeptTexts {
    ghost use Rattle.std.specs.Coded.{codes};
    ghost use Rattle.std.specs.Prelude.{map};
    ghost use Rattle.std.specs.FinMap.{code, from_entries};
    ghost use Rattle.vc_outside.specs.Keepers.{Texts};
    ghost use Rattle.vc_outside.specs.MemoryKeepers.{named_text};

    ghost Value = { Texts };

    ghost coded = { Prim.hlevel (codes, code) };

    ghost view = { λ t. from_entries (map named_text t.by_name.entries) };
}

impl KeptTexts {
    ghost use Rattle.std.specs.Prelude.{◌≡◌, IfOk, OnOk, OnErr, is_some};
    ghost use Rattle.std.specs.FinMap.{empty, get, insert, remove};
    ghost use Rattle.std.specs.Option.{option_copied};

    /// No texts.
    pub fn new(alloc: Global) -> KeptTexts
        ensures { result ≡ empty }
    {
        KeptTexts {
            by_name: BTreeMap::new(alloc),
        }
    }

    /// The text under the name, if there is one.
    pub fn find(&self, name: &[u8]) -> Option<&Word>
        ensures { option_copied result ≡ get self.now name.now }
    {
        self.by_name.get(name)
    }

    /// Puts the text under the name, in the place of the one before. After an error the texts are as before.
    pub fn put(&mut self, alloc: Global, name: &[u8], text: &[u8]) -> Result<(), AllocError>
        ensures ok { OnOk result (self.new ≡ insert self.old name.now text.now) }
        ensures err { OnErr result (self.new ≡ self.old) }
    {
        let key = Vec::from_slice(alloc, name)?;
        let kept = Word::from_bytes(alloc, text)?;
        self.by_name.insert(key, kept)?;
        Ok(())
    }

    /// Takes the text under the name out, and says whether there was one.
    pub fn remove(&mut self, name: &[u8]) -> bool
        ensures there { result ≡ is_some (get self.old name.now) }
        ensures texts { self.new ≡ remove self.old name.now }
    {
        // So many, as their names ascend: one text alone has the name.
        let _count = self.by_name.len();
        let removed = self.by_name.remove(name);
        let there = removed.is_some();
        drop(removed);
        there
    }
}

/// Texts in memory, with calls that are to fail.
#[derive(Drop)]
pub struct MemKeeper {
    alloc: Global,
    texts: KeptTexts,
    begun: Option<Option<Vec<u8>>>,
    failures: Failures,
}

impl Model for MemKeeper {
    ghost use Rattle.std.specs.Coded.{codes};
    ghost use Rattle.std.specs.FinMap.{code};
    ghost use Rattle.std.specs.Prelude.{option_map};
    ghost use Rattle.vc_outside.specs.MemoryKeepers.{KeeperState};

    ghost Value = { KeeperState };

    ghost coded = { Prim.hlevel (codes, code) };

    ghost view = { λ k. record {
      texts = k.texts;
      begun = option_map (λ name. option_map (λ bytes. bytes.items) name) k.begun;
      calls = k.failures;
    } };
}

impl MemKeeper {
    ghost use Rattle.std.specs.Prelude.{◌≡◌, ◌++◌, ◌∷◌, [], None, OnOk, OnErr};
    ghost use Rattle.std.specs.FinMap.{empty};

    /// A keeper of nothing, which isn't begun, and of which no call is to fail.
    pub fn new(alloc: Global) -> MemKeeper
        ensures { result ≡ record { texts = empty; begun = None; calls = record { made = 0; failing = [] } } }
    {
        MemKeeper {
            alloc,
            texts: KeptTexts::new(alloc),
            begun: None,
            failures: Failures::new(alloc),
        }
    }

    /// Lets the call of this number, counted from 1, fail. After an error nothing changed.
    pub fn fail_at(&mut self, call: u64) -> Result<(), AllocError>
        ensures ok { OnOk result (self.new
            ≡ record self.old { calls = record self.old.calls { failing = self.old.calls.failing ++ call ∷ [] } }) }
        ensures err { OnErr result (self.new ≡ self.old) }
    {
        self.failures.fail_at(call)
    }
}

impl Keeper for MemKeeper {
    ghost use Rattle.std.specs.Prelude.{Some};

    ghost texts = { λ k. Some k.texts };

    ghost opens = { λ k name. Some k.texts };

    ghost begun = { λ k. k.begun };

    ghost faults = { λ k. faults_of k.calls };

    // It fails where the call is one that is to fail, and nowhere else.
    fn begin(&mut self, name: Option<&str>) -> Result<(), KeepFault>
        ensures begun { Begins self.old.begun self.new.begun name.entry result }
        ensures texts { Opens (Some self.old.texts) (λ place. Some self.old.texts) (Some self.new.texts) name.entry
            result }
        ensures cause { HasKeepCause (faults_of self.old.calls) (faults_of self.new.calls) result }
        ensures fails { is_failed result ≡ next_fails self.old.calls }
        ensures calls { self.new.calls ≡ with_call self.old.calls }
    {
        if self.failures.next_fails() {
            return Err(KeepFault::Failed);
        }
        self.begun = Some(copied_name(self.alloc, name)?);
        Ok(())
    }

    // It fails where the call is one that is to fail, and nowhere else.
    fn put(&mut self, name: &[u8], text: &[u8]) -> Result<(), KeepFault>
        requires { IsSome self.old.begun }
        ensures texts { Puts (Some self.old.texts) (Some self.new.texts) name.now text.now result }
        ensures begun { self.new.begun ≡ self.old.begun }
        ensures cause { HasKeepCause (faults_of self.old.calls) (faults_of self.new.calls) result }
        ensures fails { is_failed result ≡ next_fails self.old.calls }
        ensures calls { self.new.calls ≡ with_call self.old.calls }
    {
        if self.failures.next_fails() {
            return Err(KeepFault::Failed);
        }
        self.texts.put(self.alloc, name, text)?;
        Ok(())
    }

    // It fails where the call is one that is to fail, and nowhere else.
    fn get(&mut self, name: &[u8]) -> Result<Option<Word>, KeepFault>
        requires { IsSome self.old.begun }
        ensures told { Tells (Some self.old.texts) name.now result }
        ensures texts { Some self.new.texts ≡ Some self.old.texts }
        ensures begun { self.new.begun ≡ self.old.begun }
        ensures cause { HasKeepCause (faults_of self.old.calls) (faults_of self.new.calls) result }
        ensures fails { is_failed result ≡ next_fails self.old.calls }
        ensures calls { self.new.calls ≡ with_call self.old.calls }
    {
        if self.failures.next_fails() {
            return Err(KeepFault::Failed);
        }
        match self.texts.find(name) {
            Some(text) => Ok(Some(Word::from_bytes(self.alloc, text.bytes())?)),
            None => Ok(None),
        }
    }

    // It fails where the call is one that is to fail, and nowhere else.
    fn remove(&mut self, name: &[u8]) -> Result<bool, KeepFault>
        requires { IsSome self.old.begun }
        ensures texts { Forgets (Some self.old.texts) (Some self.new.texts) name.now result }
        ensures begun { self.new.begun ≡ self.old.begun }
        ensures cause { HasKeepCause (faults_of self.old.calls) (faults_of self.new.calls) result }
        ensures fails { is_failed result ≡ next_fails self.old.calls }
        ensures calls { self.new.calls ≡ with_call self.old.calls }
    {
        if self.failures.next_fails() {
            return Err(KeepFault::Failed);
        }
        Ok(self.texts.remove(name))
    }
}
