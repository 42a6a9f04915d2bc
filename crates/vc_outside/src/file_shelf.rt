//! The files of the file system.

ghost use Rattle.std.specs.Prelude.{◌≡◌, ◌≤◌, None, false};
ghost use Rattle.vc_outside.specs.Faults.{Raised};

use crate::fault::Failed;
use crate::shelf::{Found, Shelf};
use std::fs;
use std::fs::Files;
use std::io::{ErrorKind, Read};
use std::marker::Model;

/// The files of the file system, which tells nothing of what they hold. A contract sees whether a
/// file is begun, and the count of faults.
#[derive(Drop)]
pub struct FileShelf<R: Files> {
    runtime: R,
    file: Option<R::File>,
    faults: u64,
}

impl<R: Files> Model for FileShelf<R> {
    ghost use Rattle.std.specs.Prelude.{is_some};
    ghost use Rattle.vc_outside.specs.Shelves.{EdgeState};

    ghost Value = { EdgeState };

    ghost view = { λ s. record { begun = is_some s.file; faults = s.faults } };
}

impl<R: Files> FileShelf<R> {
    /// A shelf with no file begun, and no fault.
    pub fn new(runtime: R) -> FileShelf<R>
        ensures { result ≡ record { begun = false; faults = 0 } }
    {
        FileShelf {
            runtime,
            file: None,
            faults: 0,
        }
    }

    fn raise(&mut self) -> Failed
        ensures later { self.old.faults ≤ self.new.faults }
        ensures raised { Raised self.old.faults self.new.faults }
        ensures begun { self.new.begun ≡ self.old.begun }
    {
        self.faults = self.faults.saturating_add(1);
        Failed
    }
}

impl<R: Files> Shelf for FileShelf<R> {
    ghost files = { λ _. None };

    ghost left = { λ _. None };

    ghost is_begun = { λ s. s.begun };

    ghost faults = { λ s. s.faults };

    fn begin(&mut self, name: &str) -> Result<Found, Failed> {
        self.file = None;
        match fs::open(&self.runtime, name) {
            Ok(file) => {
                self.file = Some(file);
                Ok(Found::There)
            }
            Err(error) if error.kind() == ErrorKind::NotFound => Ok(Found::Missing),
            Err(_) => Err(self.raise()),
        }
    }

    fn read(&mut self, buffer: &mut [u8]) -> Result<usize, Failed> {
        let Some(file) = &mut self.file else {
            unreachable!()
        };
        match file.read(buffer) {
            Ok(count) => Ok(count),
            Err(_) => Err(self.raise()),
        }
    }
}
