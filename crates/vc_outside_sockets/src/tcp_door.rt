//! A door over TCP.

ghost use Rattle.std.specs.Prelude.{◌≡◌, ◌≤◌, false, None};
ghost use Rattle.vc_outside.specs.Faults.{Raised};

use crate::tcp_link::TcpLink;
use std::alloc::Global;
use std::io::{ErrorKind, Read, Write};
use std::marker::Model;
use std::net::{Net, OpenListener, OpenStream, TcpListener};
use vc_outside::Failed;
use vc_outside_links::Door;

/// So many clients that gave up are passed over, one after another.
const TRIES: u32 = 1_000_000;

#[derive(Drop)]
struct Listening<L> {
    listener: L,
    address: Vec<u8>,
}

/// A door at a port. It tells nothing of its links, and counts the calls that failed.
#[derive(Drop)]
pub struct TcpDoor<R: Net> {
    runtime: R,
    alloc: Global,
    listening: Option<Listening<R::Listener>>,
    is_out: bool,
    faults: u64,
}

impl<R: Net> Model for TcpDoor<R> {
    ghost use Rattle.std.specs.Prelude.{option_map};
    ghost use Rattle.vc_outside_sockets.specs.Edges.{DoorEdge};

    ghost Value = { DoorEdge };

    ghost view = { λ s. record {
      address = option_map (λ l. l.address.items) s.listening;
      is_out = s.is_out;
      faults = s.faults;
    } };
}

impl<R: Net> TcpDoor<R> {
    /// A door that doesn't listen yet, with no fault.
    pub fn new(runtime: R, alloc: Global) -> TcpDoor<R>
        ensures { result ≡ record { address = None; is_out = false; faults = 0 } }
    {
        TcpDoor {
            runtime,
            alloc,
            listening: None,
            is_out: false,
            faults: 0,
        }
    }

    /// The port at which it listens, or 0 where it doesn't or the system can't tell it.
    pub fn port(&self) -> u16 {
        match &self.listening {
            Some(listening) => match listening.listener.local_addr() {
                Ok(address) => address.port(),
                Err(_) => 0,
            },
            None => 0,
        }
    }

    fn raise(&mut self) -> Failed
        ensures later { self.old.faults ≤ self.new.faults }
        ensures raised { Raised self.old.faults self.new.faults }
        ensures address { self.new.address ≡ self.old.address }
        ensures out { self.new.is_out ≡ self.old.is_out }
    {
        self.faults = self.faults.saturating_add(1);
        Failed
    }
}

// The next link. A client that gave up before it was taken is passed over.
fn accept<L: OpenListener>(listener: &L) -> Option<TcpLink<L::Stream>>
where
    L::Stream: Read + Write + OpenStream,
{
    for _ in 0..TRIES {
        match listener.accept() {
            Ok((stream, _)) => {
                let link = TcpLink::new(stream);
                return if link.limit_waits() { Some(link) } else { None };
            }
            Err(error) if error.kind() == ErrorKind::ConnectionAborted => {}
            Err(_) => return None,
        }
    }
    None
}

impl<R: Net> Door for TcpDoor<R> {
    type Conn = TcpLink<R::Stream>;

    ghost coming = { λ _. None };

    ghost finished = { λ _. None };

    ghost address = { λ s. s.address };

    ghost is_out = { λ s. s.is_out };

    ghost faults = { λ s. s.faults };

    fn listen(&mut self, place: &str) -> Result<(), Failed> {
        let Ok(address) = Vec::from_slice(self.alloc, place.as_bytes()) else {
            return Err(self.raise());
        };
        match TcpListener::bind(&self.runtime, place) {
            Ok(listener) => {
                self.listening = Some(Listening { listener, address });
                Ok(())
            }
            Err(_) => Err(self.raise()),
        }
    }

    fn next(&mut self) -> Result<TcpLink<R::Stream>, Failed> {
        let Some(listening) = &self.listening else {
            unreachable!()
        };
        match accept(&listening.listener) {
            Some(link) => {
                self.is_out = true;
                Ok(link)
            }
            None => Err(self.raise()),
        }
    }

    fn done(&mut self, link: TcpLink<R::Stream>) {
        self.is_out = false;
        let mut link = link;
        link.finish();
        drop(link);
    }
}
