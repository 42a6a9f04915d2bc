//! The judgement of the bytes of a connection.

ghost use Rattle.std.specs.Prelude.{◌≡◌, ◌≤◌, ◌+◌, drop, length, IfSome, Ok};
ghost use Rattle.std.specs.Option.{option_map};
ghost use Rattle.vc_http_routes.specs.Rows.{route_rows};
ghost use Rattle.vc_http_routes.specs.declared.methods.Allow.TheVariants as allowed;
ghost use Rattle.vc_http_heads.specs.Heads.{said_of};
ghost use Rattle.vc_http_targets.specs.Targets.{aim_said, target_at};
ghost use Rattle.vc_http_messages.specs.Messages as messages;
ghost use Rattle.vc_http_messages.specs.declared.judging.Judged.TheVariants as judged;

use matchit::Router;
use std::alloc::Global;
use vc_http_heads::{Head, HeadJudged, judge_head};
use vc_http_routes::{Allow, Method, Route, allow_of, method_of};
use vc_http_targets::{Target, find_target, read_request, verb_for};
use vc_wire_requests::Request;
use vc_wire_requests::verbs::Verb;

/// A body has at most so many bytes.
pub const BODY_LIMIT: u32 = 65_536;

/// What came of the message with which bytes begin.
#[derive(Debug, Drop)]
pub enum Judged {
    Whole {
        request: Request,
        /// Whether the connection goes on behind it.
        keep: bool,
        /// How many bytes it has.
        size: usize,
    },
    Refused {
        status: u16,
        /// The methods that are allowed, where the method is refused.
        allow: Allow,
    },
    /// The bytes end before it does.
    Cut,
    /// There was no memory for a request of so many bytes.
    OutOfMemory {
        size: usize,
    },
}

fn refused(status: u16) -> Judged
    ensures { result ≡ judged.Refused status allowed.Nothing }
{
    Judged::Refused {
        status,
        allow: Allow::Nothing,
    }
}

fn wants_length(method: Method) -> bool
    ensures { result ≡ messages.wants_length method }
{
    matches!(method, Method::Put | Method::Post)
}

// What is wanted of the route by a method of this name, and whether a length is wanted.
fn wanted_of(route: Route, name: &[u8]) -> Option<(Verb, bool)>
    ensures { result ≡ messages.wanted_of route name.now }
{
    let method = method_of(name)?;
    let verb = verb_for(route, method)?;
    Some((verb, wants_length(method)))
}

// The status by which the length is refused, or how many bytes the body has.
fn length_wanted(wants: bool, body: Option<u32>) -> Result<u32, u16>
    ensures { result ≡ messages.length_wanted wants body }
{
    match body {
        Some(count) if count > BODY_LIMIT => Err(413),
        Some(count) => Ok(count),
        None if wants => Err(411),
        None => Ok(0),
    }
}

fn rest_of(bytes: &[u8], start: usize) -> &[u8]
    requires { start ≤ length bytes.now }
    ensures { result.now ≡ drop start bytes.now }
{
    &bytes[start..]
}

// The body that begins at this place, if all of it is there.
fn body_at(bytes: &[u8], start: usize, count: usize) -> Option<&[u8]>
    requires { start ≤ length bytes.now }
    ensures is { option_map (λ body. body.now) result ≡ messages.body_in count (drop start bytes.now) }
    ensures within { IfSome result (λ body. start + count ≤ length bytes.now) }
{
    let more = rest_of(bytes, start);
    if more.len() < count {
        None
    } else {
        Some(&more[..count])
    }
}

#[tactic(auto, using(crate::proofs::ExtentLaws::drop_both))]
fn judge_body(
    alloc: Global,
    verb: Verb,
    target: Target<'_>,
    keep: bool,
    start: usize,
    count: usize,
    bytes: &[u8],
) -> Judged
    requires { start ≤ length bytes.now }
    ensures { messages.Judges
        (messages.by_length verb (aim_said target.entry) keep (drop start bytes.now) (Ok count)) bytes.now result }
{
    let Some(body) = body_at(bytes, start, count) else {
        return Judged::Cut;
    };
    let size = start + count;
    match read_request(alloc, verb, target, body) {
        Ok(Some(request)) => Judged::Whole {
            request,
            keep,
            size,
        },
        Ok(None) => refused(400),
        Err(_) => Judged::OutOfMemory { size },
    }
}

fn judge_length(
    alloc: Global,
    wanted: (Verb, bool),
    target: Target<'_>,
    head: Head<'_>,
    bytes: &[u8],
) -> Judged
    requires { head.size ≤ length bytes.now }
    ensures { messages.Judges
        (messages.by_length wanted.0 (aim_said target.entry) head.entry.keep (drop head.entry.size bytes.now)
        (messages.length_wanted wanted.1 head.entry.body)) bytes.now result }
{
    let (verb, wants) = wanted;
    match length_wanted(wants, head.body) {
        Ok(count) => judge_body(
            alloc,
            verb,
            target,
            head.keep,
            head.size,
            count as usize,
            bytes,
        ),
        Err(status) => refused(status),
    }
}

fn judge_method(
    alloc: Global,
    route: Route,
    target: Target<'_>,
    head: Head<'_>,
    bytes: &[u8],
) -> Judged
    requires { head.size ≤ length bytes.now }
    ensures { messages.Judges
        (messages.by_method route (aim_said target.entry) (said_of head.entry) (drop head.entry.size bytes.now)
        (messages.wanted_of route head.entry.method.now)) bytes.now result }
{
    match wanted_of(route, head.method) {
        Some(wanted) => judge_length(alloc, wanted, target, head, bytes),
        None => Judged::Refused {
            status: 405,
            allow: allow_of(route),
        },
    }
}

fn judge_whole(routes: &Router<Route>, alloc: Global, head: Head<'_>, bytes: &[u8]) -> Judged
    requires table { routes.now ≡ route_rows }
    requires within { head.size ≤ length bytes.now }
    ensures { messages.Judges
        (messages.by_target (said_of head.entry) (drop head.entry.size bytes.now) (target_at head.entry.path.now))
        bytes.now result }
{
    match find_target(routes, head.path) {
        Some((route, target)) => judge_method(alloc, route, target, head, bytes),
        None => refused(404),
    }
}

/// Judges the message with which the bytes begin.
pub fn judge(routes: &Router<Route>, alloc: Global, bytes: &[u8]) -> Judged
    requires { routes.now ≡ route_rows }
    ensures { messages.IsJudged bytes.now result }
{
    match judge_head(bytes) {
        HeadJudged::Whole(head) => judge_whole(routes, alloc, head, bytes),
        HeadJudged::Refused(status) => refused(status),
        HeadJudged::Cut => Judged::Cut,
    }
}
