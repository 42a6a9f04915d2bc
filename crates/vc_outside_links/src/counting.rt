//! Calls in memory, counted by a sink: a piece without bytes fails exactly where the next call is to fail.

ghost use Rattle.std.specs.Prelude.{◌≡◌, ◌+◌, ◌≤◌};
ghost use Rattle.vc_outside.specs.Faults.{faults_of, HasCause, Raised};
ghost use Rattle.vc_outside_links.specs.Counting.{call_answer, with_counted, with_refused};

use vc_outside::{Failed, MemSink, Sink};

/// Counts one call more, which fails where it is to fail.
pub(crate) fn count_call(sink: &mut MemSink) -> Result<(), Failed>
    ensures answer { result ≡ call_answer sink.old }
    ensures state { sink.new ≡ with_counted sink.old }
    ensures cause { HasCause (faults_of sink.old.calls + sink.old.refused) (faults_of sink.new.calls +
        sink.new.refused) result }
{
    sink.write(&[])?;
    Ok(())
}

/// Counts one call more, which fails.
pub(crate) fn refuse_call(sink: &mut MemSink) -> Failed
    requires { sink.old.room ≡ 0 }
    ensures state { sink.new ≡ with_refused sink.old }
    ensures later { faults_of sink.old.calls + sink.old.refused ≤ faults_of sink.new.calls + sink.new.refused }
    ensures raised { Raised (faults_of sink.old.calls + sink.old.refused) (faults_of sink.new.calls +
        sink.new.refused) }
{
    match sink.write(&[0]) {
        Ok(_) => unreachable!(),
        Err(failed) => failed,
    }
}
