//! A door in memory, for tests.

ghost use Rattle.std.specs.Prelude.{◌≡◌, ◌+◌, [], ◌∷◌, ◌++◌, false, Some, None, IsSome, IsTrue, IfOk, OnOk};
ghost use Rattle.std.specs.Prelude.{OnErr, is_ok};
ghost use Rattle.vc_outside.specs.Faults.{faults_of, HasCause};
ghost use Rattle.vc_outside_links.specs.Doors.{Finishes, Listens, Takes};
ghost use Rattle.vc_outside_links.specs.MemoryDoors.{next_answer, with_done, with_next, ListensInMemory};

use crate::counting::{count_call, refuse_call};
use crate::door::Door;
use crate::memory_link::MemLink;
use std::alloc::{AllocError, Global};
use std::collections::VecDeque;
use std::marker::Model;
use vc_outside::{Failed, MemSink};

/// Links in memory that come one after another, with calls that are to fail. A place for each is kept from the start,
/// so that no memory is taken as they come and go.
#[derive(Debug, Drop)]
pub struct MemDoor {
    alloc: Global,
    coming: VecDeque<MemLink>,
    finished: Vec<MemLink>,
    address: Option<Vec<u8>>,
    is_out: bool,
    /// It has no room, and counts the calls.
    sink: MemSink,
}

impl Model for MemDoor {
    ghost use Rattle.std.specs.Prelude.{◌≡◌, ◌+◌, ◌≤◌, vec_len, vec_capacity, option_map, if◌then◌else◌};
    ghost use Rattle.std.specs.VecDeque.{deque_len};
    ghost use Rattle.vc_outside_links.specs.MemoryDoors.{DoorState};

    ghost Value = { DoorState };

    ghost view = { λ s. record {
      coming = s.coming.items;
      finished = s.finished.items;
      address = option_map (λ text. text.items) s.address;
      is_out = s.is_out;
      sink = s.sink;
    } };

    ghost invariant = { λ s. (s.sink.room ≡ 0)
        × ((deque_len s.coming + vec_len s.finished) + (if s.is_out then 1 else 0) ≤ vec_capacity s.finished) };
}

impl MemDoor {
    /// A door at which these links come. It doesn't listen yet, and no call is to fail.
    pub fn new(alloc: Global, links: Vec<MemLink>) -> Result<MemDoor, AllocError>
        ensures { IfOk result (λ door. door ≡ record {
          coming = links.items;
          finished = [];
          address = None;
          is_out = false;
          sink = record { written = []; room = 0; refused = 0; calls = record { made = 0; failing = [] } };
        }) }
    {
        let finished = Vec::with_capacity(alloc, links.len())?;
        let sink = MemSink::with_room(alloc, 0)?;
        Ok(MemDoor {
            alloc,
            coming: VecDeque::from_vec(links),
            finished,
            address: None,
            is_out: false,
            sink,
        })
    }

    /// Lets the call of this number, counted from 1, fail. After an error nothing changed.
    pub fn fail_at(&mut self, call: u64) -> Result<(), AllocError>
        ensures ok { OnOk result (self.new ≡ record self.old {
          sink = record self.old.sink {
            calls = record self.old.sink.calls { failing = self.old.sink.calls.failing ++ call ∷ [] };
          };
        }) }
        ensures err { OnErr result (self.new ≡ self.old) }
    {
        self.sink.fail_at(call)
    }

    /// The links that are done.
    pub fn finished(&self) -> &[MemLink]
        ensures { result.now ≡ self.now.finished }
    {
        self.finished.as_slice()
    }
}

impl Door for MemDoor {
    ghost use Rattle.std.specs.Prelude.{Some};

    type Conn = MemLink;

    ghost coming = { λ s. Some s.coming };

    ghost finished = { λ s. Some s.finished };

    ghost address = { λ s. s.address };

    ghost is_out = { λ s. s.is_out };

    ghost faults = { λ s. faults_of s.sink.calls + s.sink.refused };

    // It fails where the call is one that is to fail or memory for the address is wanting, and nowhere else.
    fn listen(&mut self, place: &str) -> Result<(), Failed>
        ensures address { Listens self.old.address self.new.address place.now result }
        ensures coming { Some self.new.coming ≡ Some self.old.coming }
        ensures finished { Some self.new.finished ≡ Some self.old.finished }
        ensures out { self.new.is_out ≡ self.old.is_out }
        ensures cause { HasCause (faults_of self.old.sink.calls + self.old.sink.refused)
            (faults_of self.new.sink.calls + self.new.sink.refused) result }
        ensures state { ListensInMemory self.old self.new place.now result }
    {
        match Vec::from_slice(self.alloc, place.as_bytes()) {
            Ok(address) => {
                count_call(&mut self.sink)?;
                self.address = Some(address);
                Ok(())
            }
            Err(_) => Err(refuse_call(&mut self.sink)),
        }
    }

    // It fails where the call is one that is to fail or no link is left, and nowhere else.
    fn next(&mut self) -> Result<MemLink, Failed>
        requires listens { IsSome self.old.address }
        requires home { self.old.is_out ≡ false }
        ensures coming { Takes (Some self.old.coming) (Some self.new.coming) result }
        ensures finished { Some self.new.finished ≡ Some self.old.finished }
        ensures address { self.new.address ≡ self.old.address }
        ensures out { self.new.is_out ≡ is_ok result }
        ensures cause { HasCause (faults_of self.old.sink.calls + self.old.sink.refused)
            (faults_of self.new.sink.calls + self.new.sink.refused) result }
        ensures answer { result ≡ next_answer self.old }
        ensures state { self.new ≡ with_next self.old }
    {
        if self.coming.is_empty() {
            return Err(refuse_call(&mut self.sink));
        }
        count_call(&mut self.sink)?;
        match self.coming.pop_front() {
            Some(link) => {
                self.is_out = true;
                Ok(link)
            }
            None => unreachable!(),
        }
    }

    fn done(&mut self, link: MemLink)
        requires out { IsTrue self.old.is_out }
        ensures finished { Finishes (Some self.old.finished) (Some self.new.finished) link }
        ensures coming { Some self.new.coming ≡ Some self.old.coming }
        ensures address { self.new.address ≡ self.old.address }
        ensures home { self.new.is_out ≡ false }
        ensures faults { faults_of self.new.sink.calls + self.new.sink.refused
            ≡ faults_of self.old.sink.calls + self.old.sink.refused }
        ensures state { self.new ≡ with_done self.old link }
    {
        self.is_out = false;
        match self.finished.push(link) {
            Ok(()) => {}
            Err(_) => unreachable!(),
        }
    }
}
