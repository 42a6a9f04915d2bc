//! Texts that are sent one after another.

ghost use Rattle.std.specs.Prelude.{◌≡◌, flat_map, OnOk, OnErr};
ghost use Rattle.std.specs.Io.KnownBytes.{Appends};
ghost use Rattle.vc_outside.specs.Faults.{HasCause};
ghost use Rattle.vc_outside.specs.Sinks.{AppendsFront};

use vc_outside::Failed;
use vc_outside_links::{Link, send_all};

fn send_text<L: Link>(link: &mut L, text: &str) -> Result<(), Failed>
    ensures ok { OnOk result (Appends (L.written link.old) (L.written link.new) text.now) }
    ensures err { OnErr result (AppendsFront (L.written link.old) (L.written link.new) text.now) }
    ensures left { L.left link.new ≡ L.left link.old }
    ensures cause { HasCause (L.faults link.old) (L.faults link.new) result }
{
    send_all(link, text.as_bytes())
}

/// Sends the texts, one after another. After an error a front of them was written.
pub fn send_each<L: Link>(link: &mut L, texts: &[&str]) -> Result<(), Failed>
    ensures ok { OnOk result (Appends (L.written link.old) (L.written link.new)
        (flat_map (λ text. text.now) texts.now)) }
    ensures err { OnErr result (AppendsFront (L.written link.old) (L.written link.new)
        (flat_map (λ text. text.now) texts.now)) }
    ensures left { L.left link.new ≡ L.left link.old }
    ensures cause { HasCause (L.faults link.old) (L.faults link.new) result }
{
    for text in texts {
        match send_text(link, *text) {
            Ok(()) => {}
            Err(failed) => return Err(failed),
        }
    }
    Ok(())
}
