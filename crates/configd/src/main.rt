//! The program `configd`: hands the words, the files, a database of saved sessions, a port and standard output to the
//! top call, and ends with its status.
#![tactic(auto)]

use std::alloc::AllocError;
use std::env;
use std::process::ExitCode;
use vc_app::desk;
use vc_outside::{FileShelf, StdSink};
use vc_outside_sockets::TcpDoor;
use vc_store_sqlite::FileKeeper;

/// The words of the command line, the program's name first; none where they can't be had.
fn arguments(rt: &HostRuntime) -> Vec<String> {
    let none = Vec::new(rt.alloc());
    match env::args(rt) {
        Ok(arguments) => arguments.collect(rt.alloc()).unwrap_or(none),
        Err(_) => none,
    }
}

fn main(rt: HostRuntime) -> ExitCode {
    let arguments = arguments(&rt);
    let words = match arguments.as_slice() {
        [_, words @ ..] => words,
        [] => &[],
    };
    let alloc = rt.alloc();
    let mut shelf = FileShelf::new(&rt);
    let mut door = TcpDoor::new(&rt, alloc);
    let mut sink = StdSink::new(rt.stdout());
    let mut keeper = FileKeeper::new(rt);
    ExitCode::from(desk(alloc, words, &mut shelf, &mut keeper, &mut door, &mut sink))
}
