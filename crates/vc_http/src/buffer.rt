//! The bytes of a connection that were read and aren't used yet.

ghost use Rattle.std.specs.Prelude.{◌≡◌, ◌+◌, ◌<◌, ◌≤◌, [], List, ℕ, ◌++◌, drop, length};
ghost use Rattle.std.specs.Prelude.{Ok, IfOk, IfSome, IfNone, OnErr};
ghost use Rattle.std.specs.Io.KnownBytes.{Consumes, IsAtEnd, Keeps};
ghost use Rattle.vc_outside.specs.Faults.{HasCause};
ghost use Rattle.vc_http_messages.specs.Messages.{MessageOf};
ghost use Rattle.vc_http_messages.specs.Messages as messages;
ghost use Rattle.vc_http.specs.Turns.{Takes};

use crate::turns::Turn;
use matchit::Router;
use std::alloc::{AllocError, Global};
use std::marker::Model;
use vc_http_messages::{Judged, judge};
use vc_http_routes::{Route, new_routes};
use vc_outside::Failed;
use vc_outside_links::Link;

/// A head and a body have at most so many bytes.
pub const MESSAGE_LIMIT: usize = 73_728;

/// One read gives at most so many bytes.
pub const PIECE: usize = 4096;

/// There is room for so many bytes: a message that isn't whole, and one read more.
pub const KEEP_LIMIT: usize = 77_824;

/// The bytes of a connection that were read and aren't used yet. Their room is taken once, with the routes.
#[derive(Drop)]
pub struct Buf {
    alloc: Global,
    bytes: Vec<u8>,
    routes: Router<Route>,
}

impl Model for Buf {
    ghost use Rattle.std.specs.Prelude.{◌≡◌, ◌≤◌, List, ℕ, vec_capacity};
    ghost use Rattle.vc_http_routes.specs.Rows.{route_rows};

    ghost Value = { List ℕ };

    ghost view = { λ b. b.bytes.items };

    ghost invariant = { λ b. (b.routes ≡ route_rows) × (77824 ≤ vec_capacity b.bytes) };
}

impl Buf {
    /// No bytes are kept.
    pub fn new(alloc: Global) -> Result<Buf, AllocError>
        ensures { IfOk result (λ buffer. buffer ≡ []) }
    {
        let bytes = Vec::with_capacity(alloc, KEEP_LIMIT)?;
        let routes = new_routes(alloc)?;
        Ok(Buf {
            alloc,
            bytes,
            routes,
        })
    }

    /// No bytes are kept any more.
    pub fn clear(&mut self)
        ensures { self.new ≡ [] }
    {
        self.bytes.clear();
    }

    /// How many bytes are kept.
    pub fn len(&self) -> usize
        ensures { result ≡ length self.now }
    {
        self.bytes.len()
    }

    #[tactic(auto, using(crate::proofs::TakingLaws::front_rules))]
    fn take_front(&mut self, count: usize)
        requires { count ≤ length self.old }
        ensures rest { self.new ≡ drop count self.old }
        ensures fewer { length self.new ≤ length self.old }
    {
        let left = self.bytes.len() - count;
        self.bytes.rotate_left(count);
        self.bytes.truncate(left);
    }

    fn add(&mut self, bytes: &[u8])
        requires { length self.old + length bytes.now ≤ KEEP_LIMIT }
        ensures { self.new ≡ self.old ++ bytes.now }
    {
        match self.bytes.extend_from_slice(bytes) {
            Ok(()) => {}
            Err(_) => unreachable!(),
        }
    }

    fn judge(&self) -> Judged
        ensures { messages.IsJudged self.now result }
    {
        judge(&self.routes, self.alloc, self.bytes.as_slice())
    }

    // What the bytes spell that are kept, if they spell a message.
    pub(crate) fn take_turn(&mut self) -> Option<Turn>
        ensures some { IfSome result (λ turn. Takes self.old self.new turn) }
        ensures none { IfNone result (MessageOf self.old messages.cut × (self.new ≡ self.old)) }
        ensures short { IfNone result (length self.old < MESSAGE_LIMIT) }
        ensures fewer { length self.new ≤ length self.old }
    {
        match self.judge() {
            Judged::Whole {
                request,
                keep,
                size,
            } => {
                self.take_front(size);
                Some(Turn::Asked { request, keep })
            }
            Judged::Refused { status, allow } => Some(Turn::Bad { status, allow }),
            Judged::Cut => None,
            Judged::OutOfMemory { size } => {
                self.take_front(size);
                Some(Turn::OutOfMemory)
            }
        }
    }

    // Reads once. There were none where none came.
    pub(crate) fn read_from<L: Link>(&mut self, link: &mut L) -> Result<usize, Failed>
        requires { length self.old < MESSAGE_LIMIT }
        ensures came { IfOk result (λ count. (got : List ℕ) × Consumes (L.left link.old) (L.left link.new) got
            × (self.new ≡ self.old ++ got) × (length got ≡ count)) }
        ensures grows { IfOk result (λ count. length self.new ≡ length self.old + count) }
        ensures few { length self.new ≤ KEEP_LIMIT }
        ensures end { result ≡ Ok 0 → IsAtEnd (L.left link.new) }
        ensures err { OnErr result (Keeps (L.left link.old) (L.left link.new) × (self.new ≡ self.old)) }
        ensures written { L.written link.new ≡ L.written link.old }
        ensures cause { HasCause (L.faults link.old) (L.faults link.new) result }
    {
        let mut piece = [0u8; PIECE];
        let count = link.read(&mut piece)?;
        self.add(&piece[..count]);
        Ok(count)
    }
}
