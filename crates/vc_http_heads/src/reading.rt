//! The reading of a head by `httparse`.

ghost use Rattle.std.specs.Prelude.{◌≡◌, ◌≤◌, [], length, IfNone, IfSome};
ghost use Rattle.httparse.specs.Grammar.{ReadsRequest, RequestHead};
ghost use Rattle.httparse.specs.Spans.{AreFieldsAt, IsRequestAt, IsRequestWithin, span_bytes};
ghost use Rattle.vc_http_heads.specs.Ends.{count_lines};

use httparse::Status;
use httparse::spans::{HeaderSpan, RequestSpans, parse_request};

/// The parts of a text that is a head as a whole. There is room for the fields of a head of 66 lines.
#[tactic(auto, using(crate::proofs::LineLaws::few_fields))]
pub fn read_head(text: &[u8], fields: &mut [HeaderSpan]) -> Option<RequestSpans>
    requires room { length fields.old ≡ 64 }
    requires lines { count_lines text.now ≤ 66 }
    ensures read { IfSome result (λ spans. (head : RequestHead) × ReadsRequest text.now head []
        × IsRequestAt text.now fields.new spans head) }
    ensures within { IfSome result (λ spans. IsRequestWithin text.now fields.new spans) }
    ensures refused { IfNone result ((head : RequestHead) → ReadsRequest text.now head [] → ⊥) }
{
    match parse_request(text, fields) {
        Ok(Status::Complete(spans)) => {
            if spans.len == text.len() {
                Some(spans)
            } else {
                None
            }
        }
        _ => None,
    }
}
