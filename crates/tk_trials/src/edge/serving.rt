//! Connections whose bytes come in pieces, and whose client or log fails: what each device holds
//! then, and what the edge holds.

use super::frail::{Fails, FrailSink};
use super::pieces::serve_pieces;
use super::talks::{REGISTRATION, TALKS, Talk};
use super::{is_answered, make_facts, new_edge};
use std::alloc::Global;
use tk_edge::{Counted, Discard, Edge, Fault, PathSet, Reach, Served, Sink};
use tk_handle::Moment;
use tk_message::StatusCode;

// The reply of a sealed edge.
const AWAY: &[u8] =
    b"HTTP/1.1 503 Service Unavailable\r\nContent-Type: application/json\r\nContent-Length: 35\r\nCache-Control: no-store\r\nPragma: no-cache\r\nConnection: close\r\n\r\n{\"error\":\"temporarily_unavailable\"}";

// The most bytes that come at once, and the most that a call of a sink takes.
type Steps = (usize, usize);

// The steps are so short that several pieces come, and each sink is called several times.
const STEP: usize = 20;

const STEPS: Steps = (STEP, STEP);

// Which calls of client and log fail.
type Failing = [Fails; 2];

const NEVER: Fails = Fails::Never;

const SOUND: Failing = [NEVER, NEVER];

// How a connection ended: its result, the facts held, and whether the edge is sealed. Also how many
// bytes the log and the client were given, `None` if they don't begin the record and the reply;
// whether the log was called; and how many of the client's calls failed.
#[derive(Clone, Copy, PartialEq, Eq)]
struct End {
    result: Result<Served, Fault>,
    facts: u64,
    sealed: bool,
    logged: Option<usize>,
    written: Option<usize>,
    called: bool,
    failed: u64,
}

// Returns how a connection ends over devices that don't fail.
fn done(talk: &Talk) -> End {
    End {
        result: Ok(Served::Done(talk.status)),
        facts: (talk.before.len() as u64).saturating_add(1),
        sealed: false,
        logged: Some(talk.record.len()),
        written: Some(talk.reply.len()),
        called: true,
        failed: 0,
    }
}

// Returns the length of the part if it begins the whole.
fn begins(whole: &[u8], part: &[u8]) -> Option<usize> {
    if whole.starts_with(part) {
        Some(part.len())
    } else {
        None
    }
}

// Returns whether a connection of the client ends as expected, over these devices.
fn ends_at(
    alloc: Global,
    edge: &mut Edge,
    talk: &Talk,
    (come, taken): Steps,
    [write, log]: Failing,
    want: &End,
) -> bool {
    let mut writer = FrailSink::new(alloc, taken.max(1), write);
    let mut log = FrailSink::new(alloc, taken.max(1), log);
    let Some(result) = serve_pieces(alloc, edge, talk.request, come, &mut writer, &mut log) else {
        return false;
    };
    let end = End {
        result,
        facts: edge.region().len(),
        sealed: edge.sealed(),
        logged: begins(talk.record, log.bytes.as_slice()),
        written: begins(talk.reply, writer.bytes.as_slice()),
        called: log.calls > 0,
        failed: writer.failures,
    };
    end == *want
}

// Returns whether a connection ends as expected at an edge that answered only the requests before.
fn ends(alloc: Global, talk: &Talk, steps: Steps, failing: Failing, want: &End) -> bool {
    match new_edge(alloc) {
        Some(mut edge) => {
            let is_so = make_facts(alloc, &mut edge, talk.before)
                && ends_at(alloc, &mut edge, talk, steps, failing, want);
            drop(edge);
            is_so
        }
        None => false,
    }
}

// Returns whether the connection ends as expected if one call fails, and if all later calls fail,
// too.
fn both_end(alloc: Global, talk: &Talk, one: Failing, all: Failing, want: &End) -> bool {
    ends(alloc, talk, STEPS, one, want) && ends(alloc, talk, STEPS, all, want)
}

#[test]
fn a_request_is_served_in_any_pieces(rt: HostRuntime) {
    let done = done(&REGISTRATION);
    for step in 1..REGISTRATION.request.len() {
        let is_served = ends(rt.alloc(), &REGISTRATION, (step, 1_000), SOUND, &done);
        assert!(rt; is_served, "by {step}");
    }
}

// Returns how many calls give or take the bytes. If only later calls fail, the connection ends as
// over devices that don't fail.
fn calls(bytes: &[u8]) -> u64 {
    bytes.len().div_ceil(STEP) as u64
}

// Returns the first call of the log whose failure doesn't seal the edge before the reply. The last
// call flushes the log.
fn mislogged(alloc: Global, talk: &Talk) -> Option<u64> {
    let (puts, done) = (calls(talk.record), done(talk));
    for call in 0..=puts {
        let one = [NEVER, Fails::At(call)];
        let all = [NEVER, Fails::From(call)];
        let want = End {
            result: Err(Fault::Log),
            sealed: true,
            logged: Some((call as usize).saturating_mul(STEP).min(talk.record.len())),
            written: Some(0),
            ..done
        };
        if !both_end(alloc, talk, one, all, &want) {
            return Some(call);
        }
    }
    let none = [NEVER, Fails::From(puts.saturating_add(1))];
    if ends(alloc, talk, STEPS, none, &done) {
        None
    } else {
        Some(puts)
    }
}

#[test]
fn a_log_that_fails_seals_before_the_reply(rt: HostRuntime) {
    for talk in TALKS {
        let (name, miss) = (talk.name, mislogged(rt.alloc(), talk));
        assert!(rt; miss.is_none(), "{name}: call {miss:?}");
    }
}

// Returns the first call of the client whose failure leaves no fact, no record, or another part of
// the reply than was taken.
fn miswritten(alloc: Global, talk: &Talk) -> Option<u64> {
    let (calls, done) = (calls(talk.reply), done(talk));
    for call in 0..calls {
        let one = [Fails::At(call), NEVER];
        let all = [Fails::From(call), NEVER];
        let want = End {
            result: Err(Fault::Write),
            written: Some((call as usize).saturating_mul(STEP)),
            failed: 1,
            ..done
        };
        if !both_end(alloc, talk, one, all, &want) {
            return Some(call);
        }
    }
    let none = [Fails::From(calls), NEVER];
    if ends(alloc, talk, STEPS, none, &done) {
        None
    } else {
        Some(calls)
    }
}

#[test]
fn a_writer_that_fails_leaves_fact_and_record(rt: HostRuntime) {
    for talk in TALKS {
        let (name, miss) = (talk.name, miswritten(rt.alloc(), talk));
        assert!(rt; miss.is_none(), "{name}: call {miss:?}");
    }
}

// Returns whether the request is served without a log, and over std's own writer.
fn is_served_by_std(alloc: Global, edge: &mut Edge) -> bool {
    let Some(now) = Moment::new(1_000) else {
        return false;
    };
    let mut log = Discard;
    let mut writer = Counted::new(Vec::new(alloc));
    let result = edge.serve_front(
        alloc,
        Reach::plain(PathSet::All),
        REGISTRATION.request,
        false,
        &mut writer,
        &mut log,
        false,
        now,
        &[0; 6],
    );
    let is_quiet = writer.failures() == 0 && log.failures() == 0;
    let is_done = match result {
        Ok(Some((served, _))) => Ok(served) == done(&REGISTRATION).result,
        _ => false,
    };
    is_done && is_quiet && writer.inner.as_slice() == REGISTRATION.reply
}

// A client that sends no byte.
const SILENT: Talk = Talk {
    request: b"",
    reply: b"",
    ..REGISTRATION
};

const MUTE: Failing = [Fails::From(0), Fails::From(0)];

#[rattlefmt::skip]
const NOTHING: End = End { result: Ok(Served::Nothing), facts: 0, sealed: false, logged: Some(0), written: Some(0), called: false, failed: 0 };

const UNLOGGABLE: Failing = [NEVER, Fails::At(0)];

#[rattlefmt::skip]
const SEALED: End = End { result: Err(Fault::Log), facts: 2, sealed: true, logged: Some(0), written: Some(0), called: true, failed: 0 };

const TURNED: Talk = Talk {
    reply: AWAY,
    ..REGISTRATION
};

#[rattlefmt::skip]
const TURNED_AWAY: End = End { result: Ok(Served::Done(StatusCode::ServiceUnavailable)), facts: 2, sealed: true, logged: Some(0), written: Some(AWAY.len()), called: false, failed: 0 };

const HALF_WRITTEN: Failing = [Fails::At(1), NEVER];

#[rattlefmt::skip]
const HALF_AWAY: End = End { result: Err(Fault::Write), facts: 2, sealed: true, logged: Some(0), written: Some(STEP), called: false, failed: 1 };

// The life of an edge. An empty request gets no byte, and no call of client or log. std's writer
// serves. A log that fails seals the edge. A sealed edge turns away without a call of the log,
// once, again and without devices, and a write that fails is a fault.
fn life_at(alloc: Global, edge: &mut Edge) -> [bool; 8] {
    [
        is_answered(
            alloc,
            edge,
            Reach::plain(PathSet::All),
            b"",
            (StatusCode::BadRequest, b""),
        ),
        ends_at(alloc, edge, &SILENT, STEPS, MUTE, &NOTHING),
        is_served_by_std(alloc, edge),
        ends_at(alloc, edge, &REGISTRATION, STEPS, UNLOGGABLE, &SEALED),
        ends_at(alloc, edge, &TURNED, STEPS, SOUND, &TURNED_AWAY),
        ends_at(alloc, edge, &TURNED, STEPS, SOUND, &TURNED_AWAY),
        is_answered(
            alloc,
            edge,
            Reach::plain(PathSet::All),
            TURNED.request,
            (StatusCode::ServiceUnavailable, AWAY),
        ),
        ends_at(alloc, edge, &TURNED, STEPS, HALF_WRITTEN, &HALF_AWAY),
    ]
}

// The life of a new edge.
fn life(alloc: Global) -> [bool; 8] {
    match new_edge(alloc) {
        Some(mut edge) => {
            let life = life_at(alloc, &mut edge);
            drop(edge);
            life
        }
        None => [false; 8],
    }
}

#[test]
fn an_edge_serves_until_it_is_sealed(rt: HostRuntime) {
    let [none, silent, served, sealed, once, again, without, fault] = life(rt.alloc());
    assert!(rt; none, "no byte without devices");
    assert!(rt; silent, "no byte");
    assert!(rt; served, "over std's writer");
    assert!(rt; sealed, "a log that fails");
    assert!(rt; once, "turned away once");
    assert!(rt; again, "turned away again");
    assert!(rt; without, "turned away without devices");
    assert!(rt; fault, "a writer that fails");
}
