//! How the program ends, and what it says then.

ghost use Rattle.std.specs.Prelude.{◌≡◌, ◌≤◌, ◌++◌, OnOk, OnErr};
ghost use Rattle.std.specs.Io.KnownBytes.{Appends};
ghost use Rattle.vc_outside.specs.Faults.{HasCause};
ghost use Rattle.vc_outside.specs.Sinks.{AppendsFront};
ghost use Rattle.vc_app_check.specs.Lines as lines;
ghost use Rattle.vc_app_run.specs.Endings as endings;
ghost use Rattle.vc_app_run.specs.declared.ending.Stop.TheVariants as stops;

use std::alloc::Global;
use vc_app_check::lines::stop_line;
use vc_app_check::stops::{file_status, stop_status};
use vc_app_models::ModelStop;
use vc_outside::{Failed, FileFault, KeepFault, Sink, write_all};

/// Why no line of a script was answered.
#[derive(Debug, Drop)]
pub enum Stop {
    /// The words are no command.
    Usage,
    /// The model has no plan.
    Model(ModelStop),
    /// The script's file was not read.
    ScriptUnread(FileFault),
    /// The keeper couldn't be begun.
    Keeper(KeepFault),
}

/// How the program ended.
#[derive(Debug, Drop)]
pub enum Ending {
    /// Each line of the script was answered.
    Answered,
    /// No line was answered, and it was said why.
    Stopped(Stop),
    /// Memory was wanting at a line, and it was said.
    Exhausted,
    /// The sink failed while it was said why no line was answered.
    MessageCut(Stop),
    /// The sink failed in an answer.
    AnswerCut,
    /// The sink failed while it was said that memory was wanting at a line.
    ExhaustedCut,
}

impl Stop {
    fn status(&self) -> u8
        ensures { result ≡ endings.stop_status self.now }
    {
        match self {
            Stop::Usage => 1,
            Stop::Model(stop) => stop_status(stop),
            Stop::ScriptUnread(fault) => file_status(*fault),
            Stop::Keeper(KeepFault::Failed) => 7,
            Stop::Keeper(KeepFault::OutOfMemory) => 8,
        }
    }
}

impl Ending {
    /// The exit status.
    pub fn status(&self) -> u8
        ensures { result ≡ endings.status_of self.now }
    {
        match self {
            Ending::Answered => 0,
            Ending::Stopped(stop) => stop.status(),
            Ending::Exhausted => 8,
            Ending::MessageCut(_) | Ending::AnswerCut | Ending::ExhaustedCut => 5,
        }
    }
}

fn word_at(words: &[String], place: usize) -> &str
    ensures { result.now ≡ endings.word_at words.now place }
{
    match words.get(place) {
        Some(word) => word.as_str(),
        None => "",
    }
}

/// Writes the whole text. After an error a front of it was written.
pub fn write_text<S: Sink>(out: &mut S, text: &str) -> Result<(), Failed>
    ensures ok { OnOk result (Appends (S.written out.old) (S.written out.new) text.now) }
    ensures err { OnErr result (AppendsFront (S.written out.old) (S.written out.new) text.now) }
    ensures cause { HasCause (S.faults out.old) (S.faults out.new) result }
{
    write_all(out, text.as_bytes())
}

/// Writes three texts, one after another.
fn write_texts<S: Sink>(out: &mut S, before: &str, name: &str, after: &str) -> Result<(), Failed>
    ensures ok { OnOk result (Appends (S.written out.old) (S.written out.new)
        (before.now ++ (name.now ++ after.now))) }
    ensures err { OnErr result (AppendsFront (S.written out.old) (S.written out.new)
        (before.now ++ (name.now ++ after.now))) }
    ensures cause { HasCause (S.faults out.old) (S.faults out.new) result }
{
    write_text(out, before)?;
    write_text(out, name)?;
    write_text(out, after)
}

fn write_fault<S: Sink>(out: &mut S, name: &str, fault: FileFault) -> Result<(), Failed>
    ensures ok { OnOk result (Appends (S.written out.old) (S.written out.new)
        (endings.file_line name.now fault)) }
    ensures err { OnErr result (AppendsFront (S.written out.old) (S.written out.new)
        (endings.file_line name.now fault)) }
    ensures cause { HasCause (S.faults out.old) (S.faults out.new) result }
{
    match fault {
        FileFault::Missing => write_texts(out, "no such file: ", name, "\n"),
        FileFault::Failed => write_texts(out, "read fault: ", name, "\n"),
        FileFault::TooLarge => write_texts(out, "too large: ", name, "\n"),
        FileFault::OutOfMemory => write_text(out, "no memory\n"),
    }
}

fn write_keeper_fault<S: Sink>(out: &mut S, fault: KeepFault) -> Result<(), Failed>
    ensures ok { OnOk result (Appends (S.written out.old) (S.written out.new) (lines.keeper_line fault)) }
    ensures err { OnErr result (AppendsFront (S.written out.old) (S.written out.new)
        (lines.keeper_line fault)) }
    ensures cause { HasCause (S.faults out.old) (S.faults out.new) result }
{
    match fault {
        KeepFault::Failed => write_text(out, "keeper fault\n"),
        KeepFault::OutOfMemory => write_text(out, "no memory\n"),
    }
}

const USAGE: &str = "usage: configd check MODEL, run MODEL SCRIPT [KEEPFILE], \
    serve MODEL ADDRESS N [KEEPFILE], verify MODEL CHAIN, gen N\n";

// The ending where it was said why no line is answered, or a front of that.
fn said(written: Result<(), Failed>, stop: Stop) -> Ending
    ensures { result ≡ endings.said written stop }
{
    match written {
        Ok(()) => Ending::Stopped(stop),
        Err(Failed) => Ending::MessageCut(stop),
    }
}

// Says why the model that the words name has no plan; where there is no memory for that, that memory is wanting.
fn say_model<S: Sink>(alloc: Global, out: &mut S, words: &[String], stop: ModelStop) -> Ending
    ensures ends { endings.EndsStop words.now (stops.Model stop) (S.written out.old) (S.written out.new) result }
    ensures cause { endings.HasSinkCause (S.faults out.old) (S.faults out.new) result }
    ensures later { S.faults out.old ≤ S.faults out.new }
{
    match stop_line(alloc, word_at(words, 1), &stop) {
        Ok(line) => said(write_all(out, line.bytes()), Stop::Model(stop)),
        Err(_) => said(
            write_text(out, "no memory\n"),
            Stop::Model(ModelStop::OutOfMemory),
        ),
    }
}

/// Says why no line is answered.
pub fn say_stop<S: Sink>(alloc: Global, out: &mut S, words: &[String], stop: Stop) -> Ending
    ensures ends { endings.EndsStop words.now stop (S.written out.old) (S.written out.new) result }
    ensures cause { endings.HasSinkCause (S.faults out.old) (S.faults out.new) result }
    ensures later { S.faults out.old ≤ S.faults out.new }
{
    match stop {
        Stop::Usage => said(write_text(out, USAGE), Stop::Usage),
        Stop::Model(stop) => say_model(alloc, out, words, stop),
        Stop::ScriptUnread(fault) => {
            let written = write_fault(out, word_at(words, 2), fault);
            said(written, Stop::ScriptUnread(fault))
        }
        Stop::Keeper(fault) => said(write_keeper_fault(out, fault), Stop::Keeper(fault)),
    }
}
