//! The judgement of a head.

ghost use Rattle.std.specs.Prelude.{◌≡◌, ◌≤◌, ◌==◌, length, map, take, All, IsUtf8, Option};
ghost use Rattle.std.specs.List.{before_first};
ghost use Rattle.httparse.specs.Grammar.{RequestHead};
ghost use Rattle.httparse.specs.Spans.{IsHeaderWithin, IsWithin, header_bytes, span_bytes};
ghost use Rattle.vc_http_heads.specs.Ends as ends;
ghost use Rattle.vc_http_heads.specs.Fields as fields;
ghost use Rattle.vc_http_heads.specs.Heads as heads;

use crate::ends::{count_lines, head_len, skip_blank};
use crate::fields::{Length, first_named, has_host, keeps, length_in};
use crate::reading::read_head;
use httparse::spans::{EMPTY_HEADER_SPAN, HeaderSpan, RequestSpans};

/// A head has at most so many bytes.
pub const HEAD_LIMIT: usize = 8192;

/// A head has at most so many LF.
pub const LINE_LIMIT: usize = 66;

/// What a head says.
#[derive(Clone, Copy, Debug)]
pub struct Head<'b> {
    /// How many bytes it has.
    pub size: usize,
    pub method: &'b [u8],
    /// The target up to its first question mark.
    pub path: &'b str,
    /// How many bytes of a body follow, if the head says so.
    pub body: Option<u32>,
    /// Whether the connection goes on behind the message.
    pub keep: bool,
}

/// What came of a head.
#[derive(Clone, Copy, Debug)]
pub enum HeadJudged<'b> {
    Whole(Head<'b>),
    /// Refused, with this status.
    Refused(u16),
    /// The bytes end before the head does.
    Cut,
}

fn before_query(target: &str) -> &str
    ensures { result.now ≡ heads.path_of target.now }
{
    match target.split_once('?') {
        Some((path, _)) => path,
        None => target,
    }
}

fn path_of(target: &[u8]) -> &str
    requires { IsUtf8 target.now }
    ensures { result.now ≡ heads.path_of target.now }
{
    match str::from_utf8(target) {
        Ok(text) => before_query(text),
        Err(_) => unreachable!(),
    }
}

fn given_in(length: Length) -> Option<u32>
    ensures { result ≡ fields.given_in length }
{
    match length {
        Length::Given(count) => Some(count),
        Length::Absent | Length::Bad => None,
    }
}

fn judge_fields<'b>(
    size: usize,
    text: &'b [u8],
    spans: RequestSpans,
    found: &[HeaderSpan],
) -> HeadJudged<'b>
    requires method { IsWithin (length text.now) spans.method }
    requires target { IsWithin (length text.now) spans.path }
    requires utf8 { IsUtf8 (span_bytes text.now spans.path) }
    requires found { All (IsHeaderWithin (length text.now)) found.now }
    ensures { heads.said result ≡ heads.said_by size (span_bytes text.now spans.method)
        (span_bytes text.now spans.path) spans.version (map (header_bytes text.now) found.now) }
{
    let length = length_in(text, found);
    if !has_host(text, found, spans.version) || matches!(length, Length::Bad) {
        return HeadJudged::Refused(400);
    }
    if first_named(text, found, "transfer-encoding").is_some() {
        return HeadJudged::Refused(501);
    }
    HeadJudged::Whole(Head {
        size,
        method: spans.method.of(text),
        path: path_of(spans.path.of(text)),
        body: given_in(length),
        keep: keeps(text, found, spans.version),
    })
}

fn judge_text(size: usize, text: &[u8]) -> HeadJudged<'_>
    requires { ends.count_lines text.now ≤ 66 }
    ensures { (read : Option RequestHead) × heads.Reads text.now read
        × (heads.said result ≡ heads.head_said size read) }
{
    let mut fields = [EMPTY_HEADER_SPAN; 64];
    match read_head(text, &mut fields) {
        Some(spans) => judge_fields(size, text, spans, &fields[..spans.headers]),
        None => HeadJudged::Refused(400),
    }
}

fn is_large(bytes: &[u8], len: usize) -> bool
    requires { len ≤ length bytes.now }
    ensures { result ≡ ends.is_large bytes.now len }
{
    len > HEAD_LIMIT || count_lines(&bytes[..len]) > LINE_LIMIT
}

/// Judges the head with which the bytes begin.
#[tactic(auto, using(crate::proofs::LineLaws::few_lines))]
pub fn judge_head(bytes: &[u8]) -> HeadJudged<'_>
    ensures { heads.HeadOf bytes.now (heads.said result) }
{
    match head_len(bytes) {
        Some(len) if is_large(bytes, len) => HeadJudged::Refused(431),
        Some(len) => judge_text(len, skip_blank(&bytes[..len])),
        None if bytes.len() >= HEAD_LIMIT => HeadJudged::Refused(431),
        None => HeadJudged::Cut,
    }
}
