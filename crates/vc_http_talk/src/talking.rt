//! The messages of one connection, answered one after another.

ghost use Rattle.std.specs.Prelude.{◌≡◌, ◌+◌, ◌<◌, ◌≤◌, length, IsSome};
ghost use Rattle.vc_desk.specs.Desks.{IsDesk, state_of};
ghost use Rattle.vc_http_talk.specs.Courses as courses;
ghost use Rattle.vc_http_talk.specs.Courses.{AnswersRequest, ComesTo, Excuses, HoldsOfAll, Refuses};
ghost use Rattle.vc_http_talk.specs.Talk as talks;
ghost use Rattle.vc_http_talk.specs.Talk.{TalksTo};

use crate::course::Course;
use std::alloc::Global;
use std::sync::ledger::Ledger;
use vc_desk::Desk;
use vc_http::buffer::KEEP_LIMIT;
use vc_http::{Buf, Turn, next_request, write_reply};
use vc_http_responses::{SendFault, write_bad};
use vc_http_routes::Allow;
use vc_outside::Keeper;
use vc_outside_links::Link;
use vc_value_steps::Steps;
use vc_wire_requests::Request;

/// So many messages of a connection are answered at most.
pub const ANSWER_LIMIT: u16 = 10_000;

// Answers that memory was wanting.
fn excuse<L: Link>(link: &mut L) -> Course
    ensures excuses { Excuses (L.written link.old) (L.written link.new) (L.faults link.old) (L.faults link.new) result }
    ensures left { L.left link.new ≡ L.left link.old }
    ensures later { L.faults link.old ≤ L.faults link.new }
{
    match write_bad(link, 503, Allow::Nothing) {
        Ok(()) => Course::OutOfMemory,
        Err(_) => Course::Failed,
    }
}

// Answers a message that is refused.
fn refuse<L: Link>(link: &mut L, status: u16, allow: Allow) -> Course
    ensures refuses { Refuses status allow (L.written link.old) (L.written link.new) (L.faults link.old)
        (L.faults link.new) result }
    ensures left { L.left link.new ≡ L.left link.old }
    ensures later { L.faults link.old ≤ L.faults link.new }
{
    match write_bad(link, status, allow) {
        Ok(()) => Course::Closes,
        Err(_) => Course::Failed,
    }
}

// Whether the connection goes on behind the answer of this number.
fn goes_on(number: u16, keep: bool) -> bool
    ensures { result ≡ talks.goes_on number keep }
{
    keep && number < ANSWER_LIMIT
}

fn course_behind(goes: bool) -> Course
    ensures { result ≡ courses.course_behind goes }
{
    if goes { Course::GoesOn } else { Course::Closes }
}

// Answers a request, and says whether the connection goes on behind it. Where the response isn't written to the end,
// the request stands all the same.
fn answer_request<L: Link, K: Keeper, C: Ledger>(
    alloc: Global,
    desk: &mut Desk,
    keeper: &mut K,
    link: &mut L,
    request: Request,
    goes: bool,
    steps: &mut Steps<C>,
) -> Course
    requires is { IsDesk desk.old }
    requires begun { IsSome (K.begun keeper.old) }
    ensures answers { AnswersRequest desk.old.plan
        (state_of desk.old.sessions (K.texts keeper.old) (K.faults keeper.old)) request goes
        (state_of desk.new.sessions (K.texts keeper.new) (K.faults keeper.new))
        (L.written link.old) (L.written link.new) (L.faults link.old) (L.faults link.new) result }
    ensures is { IsDesk desk.new }
    ensures plan { desk.new.plan ≡ desk.old.plan }
    ensures begun { K.begun keeper.new ≡ K.begun keeper.old }
    ensures left { L.left link.new ≡ L.left link.old }
    ensures later { L.faults link.old ≤ L.faults link.new }
{
    let reply = desk.answer(alloc, keeper, &request, steps);
    let sent = write_reply(alloc, desk.plan(), link, &reply, goes);
    drop(reply);
    drop(request);
    match sent {
        Ok(()) => course_behind(goes),
        Err(fault) => match fault {
            SendFault::Failed => Course::Failed,
            SendFault::OutOfMemory => excuse(link),
        },
    }
}

// Answers the next message, before which so many were answered.
fn answer_next<L: Link, K: Keeper, C: Ledger>(
    alloc: Global,
    desk: &mut Desk,
    keeper: &mut K,
    link: &mut L,
    buffer: &mut Buf,
    answered: u16,
    steps: &mut Steps<C>,
) -> Course
    requires is { IsDesk desk.old }
    requires begun { IsSome (K.begun keeper.old) }
    requires fewer { answered < ANSWER_LIMIT }
    ensures comes { HoldsOfAll buffer.old (L.left link.old) buffer.new (L.left link.new) (λ bytes rest.
        ComesTo desk.old.plan (answered + 1)
        (state_of desk.old.sessions (K.texts keeper.old) (K.faults keeper.old)) bytes
        (state_of desk.new.sessions (K.texts keeper.new) (K.faults keeper.new)) rest
        (L.written link.old) (L.written link.new) (L.faults link.old) (L.faults link.new) result) }
    ensures is { IsDesk desk.new }
    ensures plan { desk.new.plan ≡ desk.old.plan }
    ensures begun { K.begun keeper.new ≡ K.begun keeper.old }
    ensures few { length buffer.old ≤ KEEP_LIMIT → length buffer.new ≤ KEEP_LIMIT }
    ensures later { L.faults link.old ≤ L.faults link.new }
{
    match next_request(link, buffer) {
        Turn::Asked { request, keep } => {
            let goes = goes_on(answered + 1, keep);
            let came = answer_request(alloc, desk, keeper, link, request, goes, steps);
            came
        }
        Turn::Bad { status, allow } => refuse(link, status, allow),
        Turn::End => Course::Ends,
        Turn::Failed => Course::Failed,
        Turn::OutOfMemory => excuse(link),
    }
}

/// Answers the messages of a connection, one after another, until one closes it or the bytes end. Want of memory is
/// answered and ends the connection, and a fault of the link ends it. What the buffer kept before is forgotten.
pub fn talk<L: Link, K: Keeper, C: Ledger>(
    alloc: Global,
    desk: &mut Desk,
    keeper: &mut K,
    link: &mut L,
    buffer: &mut Buf,
    steps: &mut Steps<C>,
)
    requires is { IsDesk desk.old }
    requires begun { IsSome (K.begun keeper.old) }
    ensures talks { TalksTo desk.old.plan
        (state_of desk.old.sessions (K.texts keeper.old) (K.faults keeper.old))
        (state_of desk.new.sessions (K.texts keeper.new) (K.faults keeper.new))
        (L.left link.old) (L.written link.old) (L.written link.new) (L.faults link.old) (L.faults link.new) }
    ensures is { IsDesk desk.new }
    ensures plan { desk.new.plan ≡ desk.old.plan }
    ensures begun { K.begun keeper.new ≡ K.begun keeper.old }
    ensures few { length buffer.new ≤ KEEP_LIMIT }
    ensures later { L.faults link.old ≤ L.faults link.new }
{
    buffer.clear();
    let mut answered: u16 = 0;
    loop {
        match answer_next(alloc, desk, keeper, link, buffer, answered, steps) {
            Course::GoesOn => answered += 1,
            _ => return,
        }
    }
}
