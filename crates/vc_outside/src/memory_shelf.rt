//! Files in memory, for tests.

ghost use Rattle.std.specs.Prelude.{◌≡◌, ◌+◌, ◌-◌, ◌^◌, ◌<◌, ◌≤◌, ◌↔◌, [], ◌∷◌, ◌++◌, take, drop, length, min};
ghost use Rattle.std.specs.Prelude.{is_some, unwrap_or, Some, Ok, IsTrue, IfOk, IfSome, IfNone, OnOk, OnErr};
ghost use Rattle.std.specs.Io.{ReadsAtMost};
ghost use Rattle.std.specs.Io.KnownBytes.{ReadConsumes};
ghost use Rattle.vc_outside.specs.Faults.{faults_of, HasCause};
ghost use Rattle.vc_outside.specs.Shelves.{content_of, Begins};
ghost use Rattle.vc_outside.specs.MemoryShelves.{content_at, left_at, begin_answer, with_begun, read_answer, with_read};

use crate::fault::{Failed, Failures};
use crate::shelf::{Found, Shelf};
use std::alloc::{AllocError, Global};
use std::marker::Model;

/// Files in memory, with calls that are to fail.
#[derive(Debug, Drop)]
pub struct MemShelf {
    files: Vec<MemFile>,
    begun: Option<Place>,
    failures: Failures,
}

#[derive(Debug, Drop)]
struct MemFile {
    name: Vec<u8>,
    content: Vec<u8>,
}

// A place in a file: the file's index, and how many of its bytes were read.
#[derive(Clone, Copy, Debug)]
struct Place {
    file: usize,
    at: usize,
}

impl Model for MemFile {
    ghost use Rattle.vc_outside.specs.Shelves.{File};

    ghost Value = { File };

    ghost view = { λ f. (f.name.items, f.content.items) };
}

impl Model for MemShelf {
    ghost use Rattle.std.specs.Prelude.{option_map};
    ghost use Rattle.vc_outside.specs.MemoryShelves.{ShelfState, left_at};

    ghost Value = { ShelfState };

    ghost view = { λ s. record {
      files = s.files.items;
      left = option_map (λ p. left_at s.files.items p.file p.at) s.begun;
      calls = s.failures;
    } };
}

impl MemShelf {
    /// A shelf with no files, of which no call is to fail.
    pub fn new(alloc: Global) -> MemShelf
        ensures { result ≡ record { files = []; left = None; calls = record { made = 0; failing = [] } } }
    {
        MemShelf {
            files: Vec::new(alloc),
            begun: None,
            failures: Failures::new(alloc),
        }
    }

    /// Adds a file, behind others of its name. No file is begun afterwards. After an error the files
    /// are as before.
    pub fn add(&mut self, alloc: Global, name: &str, bytes: &[u8]) -> Result<(), AllocError>
        ensures ok { OnOk result (self.new ≡ record self.old {
          files = self.old.files ++ (name.now, bytes.now) ∷ [];
          left = None;
        }) }
        ensures err { OnErr result (self.new ≡ record self.old { left = None }) }
    {
        self.begun = None;
        let file = MemFile {
            name: Vec::from_slice(alloc, name.as_bytes())?,
            content: Vec::from_slice(alloc, bytes)?,
        };
        self.files.push(file)?;
        Ok(())
    }

    /// Lets the call of this number, counted from 1, fail. After an error nothing changed.
    pub fn fail_at(&mut self, call: u64) -> Result<(), AllocError>
        ensures ok { OnOk result (self.new
            ≡ record self.old { calls = record self.old.calls { failing = self.old.calls.failing ++ call ∷ [] } }) }
        ensures err { OnErr result (self.new ≡ self.old) }
    {
        self.failures.fail_at(call)
    }
}

impl Shelf for MemShelf {
    ghost use Rattle.std.specs.Prelude.{Some, unwrap_or, is_some};

    ghost files = { λ s. Some s.files };

    ghost left = { λ s. Some (unwrap_or s.left []) };

    ghost is_begun = { λ s. is_some s.left };

    ghost faults = { λ s. faults_of s.calls };

    // It fails where the call is one that is to fail, and nowhere else.
    fn begin(&mut self, name: &str) -> Result<Found, Failed>
        ensures found { IfOk result (λ found. Begins (Some self.old.files) name.now found
            (Some (unwrap_or self.new.left []))) }
        ensures begun { IsTrue (is_some self.new.left) ↔ (result ≡ Ok Found.There) }
        ensures files { Some self.new.files ≡ Some self.old.files }
        ensures cause { HasCause (faults_of self.old.calls) (faults_of self.new.calls) result }
        ensures answer { result ≡ begin_answer self.old name.now }
        ensures state { self.new ≡ with_begun self.old name.now }
    {
        self.begun = None;
        if self.failures.next_fails() {
            return Err(Failed);
        }
        match file_of(&self.files, name.as_bytes()) {
            Some(file) => {
                self.begun = Some(Place { file, at: 0 });
                Ok(Found::There)
            }
            None => Ok(Found::Missing),
        }
    }

    // It fails where the call is one that is to fail, and nowhere else.
    fn read(&mut self, buffer: &mut [u8]) -> Result<usize, Failed>
        requires { IsTrue (is_some self.old.left) }
        ensures within { ReadsAtMost result buffer.new }
        ensures bytes { ReadConsumes (Some (unwrap_or self.old.left [])) (Some (unwrap_or self.new.left [])) result
            buffer.new }
        ensures begun { IsTrue (is_some self.new.left) }
        ensures files { Some self.new.files ≡ Some self.old.files }
        ensures cause { HasCause (faults_of self.old.calls) (faults_of self.new.calls) result }
        ensures answer { result ≡ read_answer self.old (length buffer.old) }
        ensures state { self.new ≡ with_read self.old (length buffer.old) }
    {
        if self.failures.next_fails() {
            return Err(Failed);
        }
        let Some(place) = self.begun else {
            unreachable!()
        };
        let count = copy_front(left_of(&self.files, place), buffer);
        self.begun = Some(Place {
            file: place.file,
            at: place.at + count,
        });
        Ok(count)
    }
}

// The index of the first file of this name.
fn file_of(files: &[MemFile], name: &[u8]) -> Option<usize>
    ensures there { IfSome result (λ file. content_of files.now name.now ≡ Some (content_at files.now file)) }
    ensures missing { IfNone result (content_of files.now name.now ≡ None) }
{
    for (index, file) in files.iter().enumerate() {
        if file.name.as_slice() == name {
            return Some(index);
        }
    }
    None
}

// The bytes of the file from the place on.
fn left_of(files: &[MemFile], place: Place) -> &[u8]
    ensures left { result.now ≡ left_at files.now place.file place.at }
    ensures end { place.at + length result.now < 2 ^ 64 }
{
    match files.get(place.file) {
        Some(file) => rest_of(file.content.as_slice(), place.at),
        None => &[],
    }
}

fn rest_of(bytes: &[u8], count: usize) -> &[u8]
    ensures rest { result.now ≡ drop count bytes.now }
    ensures end { count + length result.now < 2 ^ 64 }
{
    if count <= bytes.len() {
        &bytes[count..]
    } else {
        &[]
    }
}

// Copies as many bytes as there is room for, and answers how many.
fn copy_front(bytes: &[u8], buffer: &mut [u8]) -> usize
    ensures count { result ≡ min (length bytes.now) (length buffer.old) }
    ensures copied { take result buffer.new ≡ take result bytes.now }
{
    let count = bytes.len().min(buffer.len());
    buffer[..count].copy_from_slice(&bytes[..count]);
    count
}
