//! Tests of changed secrets: the last two secrets authenticate a client, also in a region that took
//! the facts in another order.
//!
//! In the tests each allocation fails once, one run for each, as docs/GATE.md describes. A request
//! that runs out of memory makes no fact, and is sent again.

use super::{edge_of, new_edge};
use std::alloc::Global;
use std::test::Fail;
use tk_edge::{Answer, Edge, PathSet, Reach};
use tk_handle::Moment;
use tk_message::StatusCode;

// A client with the secret `s3cret`, two changes of the secret, and a change that ends the secrets
// before; and which of the four secrets are good after each.
const STEPS: [(&[u8], [bool; 4]); 4] = [
    (
        b"POST /admin/client HTTP/1.1\r\nContent-Length: 81\r\n\r\n\
            kind=confidential&secret=s3cret&scope=read+write&redirects=https://app.example/cb",
        [true, false, false, false],
    ),
    (
        b"POST /admin/secret HTTP/1.1\r\nContent-Length: 28\r\n\r\n\
            client_id=c1-1&secret=second",
        [true, true, false, false],
    ),
    (
        b"POST /admin/secret HTTP/1.1\r\nContent-Length: 28\r\n\r\n\
            client_id=c1-1&secret=newest",
        [false, true, true, false],
    ),
    (
        b"POST /admin/secret HTTP/1.1\r\nContent-Length: 38\r\n\r\n\
            client_id=c1-1&secret=single&old=ended",
        [false, false, false, true],
    ),
];

// Introspections of no token, with each of the four secrets.
const QUESTIONS: [&[u8]; 4] = [
    b"POST /introspect HTTP/1.1\r\nContent-Length: 43\r\n\r\n\
        client_id=c1-1&client_secret=s3cret&token=x",
    b"POST /introspect HTTP/1.1\r\nContent-Length: 43\r\n\r\n\
        client_id=c1-1&client_secret=second&token=x",
    b"POST /introspect HTTP/1.1\r\nContent-Length: 43\r\n\r\n\
        client_id=c1-1&client_secret=newest&token=x",
    b"POST /introspect HTTP/1.1\r\nContent-Length: 43\r\n\r\n\
        client_id=c1-1&client_secret=single&token=x",
];

fn sent(alloc: Global, edge: &mut Edge, request: &[u8]) -> Option<Answer> {
    let now = Moment::new(1_000)?;
    edge.answer(alloc, Reach::plain(PathSet::All), now, &[0; 6], request)
        .ok()
}

// Returns the status of the reply, and whether the request made a fact.
fn replied(alloc: Global, edge: &mut Edge, request: &[u8]) -> Option<(StatusCode, bool)> {
    match sent(alloc, edge, request) {
        Some(answer) => {
            let replied = (answer.status, answer.logged.is_some());
            drop(answer);
            Some(replied)
        }
        None => None,
    }
}

// Returns whether the secret of the question is good; `None` for another reply than 200 or 401.
fn is_good(alloc: Global, edge: &mut Edge, question: &[u8]) -> Option<bool> {
    match replied(alloc, edge, question)? {
        (StatusCode::Ok, false) => Some(true),
        (StatusCode::Unauthorized, false) => Some(false),
        _ => None,
    }
}

// Returns which of the four secrets are good.
fn good(alloc: Global, edge: &mut Edge) -> Option<[bool; 4]> {
    let [first, second, third, fourth] = QUESTIONS;
    let early = (is_good(alloc, edge, first)?, is_good(alloc, edge, second)?);
    let late = (is_good(alloc, edge, third)?, is_good(alloc, edge, fourth)?);
    Some([early.0, early.1, late.0, late.1])
}

// ---- one region

// Sends a request, and once more if it got no reply. Returns the status, and whether it made a
// fact.
fn replied_at_last(alloc: Global, edge: &mut Edge, request: &[u8]) -> Option<(StatusCode, bool)> {
    match replied(alloc, edge, request) {
        Some((StatusCode::ServiceUnavailable, _)) | None => replied(alloc, edge, request),
        replied => replied,
    }
}

fn good_at_last(alloc: Global, edge: &mut Edge) -> Option<[bool; 4]> {
    match good(alloc, edge) {
        Some(good) => Some(good),
        None => good(alloc, edge),
    }
}

// Returns the first request after which other secrets are good than should be.
fn other_good(alloc: Global, edge: &mut Edge) -> Option<Option<usize>> {
    for (place, (request, want)) in STEPS.iter().enumerate() {
        if replied_at_last(alloc, edge, request)? != (StatusCode::Created, true) {
            return Some(Some(place));
        }
        if good_at_last(alloc, edge)? != *want {
            return Some(Some(place));
        }
    }
    Some(None)
}

fn other_good_anew(alloc: Global) -> Option<Option<usize>> {
    match new_edge(alloc) {
        Some(mut edge) => {
            let other = other_good(alloc, &mut edge);
            drop(edge);
            other
        }
        None => None,
    }
}

#[test]
fn the_last_two_secrets_authenticate_a_client(rt: HostRuntime) -> Result<(), Fail> {
    let other = other_good_anew(rt.alloc()).ok_or("no memory")?;
    assert!(rt; other.is_none(), "{other:?}");
    Ok(())
}

// A change that is sent again makes no fact, and neither do those that are refused: without a
// client, of an unknown one, without a secret, and with another word than `ended`.
const WITHOUT_FACT: &[(&[u8], StatusCode)] = &[
    (
        b"POST /admin/secret HTTP/1.1\r\nContent-Length: 28\r\n\r\n\
            client_id=c1-1&secret=second",
        StatusCode::Ok,
    ),
    (
        b"POST /admin/secret HTTP/1.1\r\nContent-Length: 13\r\n\r\n\
            secret=second",
        StatusCode::BadRequest,
    ),
    (
        b"POST /admin/secret HTTP/1.1\r\nContent-Length: 28\r\n\r\n\
            client_id=c1-9&secret=second",
        StatusCode::NotFound,
    ),
    (
        b"POST /admin/secret HTTP/1.1\r\nContent-Length: 14\r\n\r\n\
            client_id=c1-1",
        StatusCode::BadRequest,
    ),
    (
        b"POST /admin/secret HTTP/1.1\r\nContent-Length: 37\r\n\r\n\
            client_id=c1-1&secret=newest&old=kept",
        StatusCode::BadRequest,
    ),
];

// Returns the first of these requests that makes a fact, or gets another reply.
fn first_made(alloc: Global, edge: &mut Edge) -> Option<Option<usize>> {
    for (request, _) in &STEPS[..2] {
        if replied_at_last(alloc, edge, request)? != (StatusCode::Created, true) {
            return None;
        }
    }
    for (place, (request, status)) in WITHOUT_FACT.iter().enumerate() {
        if replied_at_last(alloc, edge, request)? != (*status, false) {
            return Some(Some(place));
        }
    }
    Some(None)
}

fn first_made_anew(alloc: Global) -> Option<Option<usize>> {
    match new_edge(alloc) {
        Some(mut edge) => {
            let made = first_made(alloc, &mut edge);
            drop(edge);
            made
        }
        None => None,
    }
}

#[test]
fn a_change_sent_again_makes_no_fact(rt: HostRuntime) -> Result<(), Fail> {
    let made = first_made_anew(rt.alloc()).ok_or("no memory")?;
    assert!(rt; made.is_none(), "{made:?}");
    Ok(())
}

// ---- two regions

// Sends the request at the place to an edge that got those before it. Returns the record of its
// fact.
fn recorded(alloc: Global, edge: &mut Edge, place: usize) -> Option<Vec<u8>> {
    for (request, _) in STEPS.get(..place)? {
        if replied(alloc, edge, request)? != (StatusCode::Created, true) {
            return None;
        }
    }
    let (request, _) = STEPS.get(place)?;
    match sent(alloc, edge, request) {
        Some(answer) => {
            let Answer {
                status: _,
                bytes,
                logged,
            } = answer;
            drop(bytes);
            logged
        }
        None => None,
    }
}

fn record(alloc: Global, place: usize) -> Option<Vec<u8>> {
    match new_edge(alloc) {
        Some(mut edge) => {
            let record = recorded(alloc, &mut edge, place);
            drop(edge);
            record
        }
        None => None,
    }
}

// Takes the fact of the request at the place in.
fn take(alloc: Global, edge: &mut Edge, place: usize) -> Option<()> {
    match &record(alloc, place) {
        Some(record) => match edge.region_mut().take_in(alloc, record.as_slice()) {
            Ok(1) => Some(()),
            _ => None,
        },
        None => None,
    }
}

// Returns which of the four secrets are good where the facts of the first requests arrive last to
// first.
fn good_backwards(alloc: Global, edge: &mut Edge, count: usize) -> Option<[bool; 4]> {
    for place in (0..count).rev() {
        take(alloc, edge, place)?;
    }
    good(alloc, edge)
}

fn good_elsewhere(alloc: Global, count: usize) -> Option<[bool; 4]> {
    match edge_of(alloc, 2) {
        Some(mut edge) => {
            let good = good_backwards(alloc, &mut edge, count);
            drop(edge);
            good
        }
        None => None,
    }
}

#[test]
fn facts_in_another_order_leave_the_same_secrets_good(rt: HostRuntime) -> Result<(), Fail> {
    for (place, (_, want)) in STEPS.iter().enumerate() {
        let good = good_elsewhere(rt.alloc(), place.saturating_add(1)).ok_or("no memory")?;
        assert!(rt; good == *want, "after the request {place}");
    }
    Ok(())
}
