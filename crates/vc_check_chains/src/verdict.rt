//! What is said of a chain file.

ghost use Rattle.std.specs.Prelude.{◌≡◌, ◌++◌, codes, decimal, IfOk};
ghost use Rattle.vc_check_chains.specs.Verifying as verified;

use std::alloc::{AllocError, Global};
use vc_value::Word;

/// Whether a chain file is accepted, and if not, why.
#[derive(Clone, Copy, Debug, PartialEq, Eq)]
pub enum Verdict {
    Accepted,
    /// The step of this number, from 1, is the first that isn't accepted.
    BadStep(u64),
    /// The clash refutes nothing.
    BadClash,
    /// The list is told to be whole, and more follows.
    MoreFollows,
}

fn bad_step_text(alloc: Global, number: u64) -> Result<Word, AllocError>
    ensures { IfOk result (λ text. text ≡ codes "not accepted: step " ++ decimal number) }
{
    let mut text = Word::new(alloc);
    let digits = format!(in alloc; "{number}")?;
    text.append_text("not accepted: step ")?;
    text.append_text(digits.as_str())?;
    Ok(text)
}

/// How it is told.
pub fn verdict_text(alloc: Global, verdict: Verdict) -> Result<Word, AllocError>
    ensures { IfOk result (λ text. text ≡ verified.verdict_text verdict) }
{
    match verdict {
        Verdict::Accepted => Word::from_bytes(alloc, b"accepted"),
        Verdict::BadStep(number) => bad_step_text(alloc, number),
        Verdict::BadClash => Word::from_bytes(alloc, b"not accepted: clash"),
        Verdict::MoreFollows => Word::from_bytes(alloc, b"not accepted: more follows"),
    }
}
