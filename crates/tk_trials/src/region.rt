//! A region that may run out of memory, and a request that it handles in one call.
//!
//! Programs decide and commit separately, and the rows of `check/rows/` show those replies.

use std::alloc::{AllocError, Global};
use std::test::Fail;
use tk_format::Writer;
use tk_handle::{Moment, RegionNumber};
use tk_message::{Endpoint, Lives, Params, Payload, Reply, Request};
use tk_region::{Handled, Region, Settings, TakeError};
use tk_vector::VersionVector;

// A fact that a client was retired: its dot, and the dot at which the client was added.
type Retired = ((u16, u64), (u16, u64));

fn put_dot(writer: &mut Writer, dot: (u16, u64)) -> Result<(), AllocError> {
    writer.put_u16(dot.0)?;
    writer.put_u64(dot.1)
}

// The fact's 21 bytes after their length: the dot, the kind 2, the client.
fn put_retired(writer: &mut Writer, fact: &Retired) -> Result<(), AllocError> {
    writer.put_u16(21)?;
    put_dot(writer, fact.0)?;
    writer.put_u8(2)?;
    put_dot(writer, fact.1)
}

// The facts in this order, after the magic and their number.
fn put_bundle(writer: &mut Writer, facts: &[Retired]) -> Result<(), AllocError> {
    writer.put_bytes(b"OTB1")?;
    writer.put_u16(u16::try_from(facts.len()).unwrap_or(u16::MAX))?;
    for fact in facts {
        put_retired(writer, fact)?;
    }
    Ok(())
}

fn bundle_of(alloc: Global, facts: &[Retired]) -> Option<Vec<u8>> {
    let mut writer = Writer::new(alloc);
    match put_bundle(&mut writer, facts) {
        Ok(()) => Some(writer.into_bytes()),
        Err(_) => None,
    }
}

fn is_bundle(alloc: Global, bytes: &[u8], facts: &[Retired]) -> bool {
    match &bundle_of(alloc, facts) {
        Some(bundle) => bundle.as_slice() == bytes,
        None => false,
    }
}

// Returns whether the region holds these facts alone: by their number, and as one bundle.
fn holds(alloc: Global, region: &Region, facts: &[Retired]) -> bool {
    match &region.page(alloc, &VersionVector::new(alloc), None) {
        Ok(page) => {
            region.len() == facts.len() as u64 && is_bundle(alloc, page.bytes.as_slice(), facts)
        }
        Err(_) => false,
    }
}

// Returns the lives that a program gives by default.
pub(crate) fn default_lives() -> Lives {
    Lives {
        code: 60,
        access: 3_600,
        refresh: 86_400,
        family: 2_592_000,
    }
}

fn new_region(alloc: Global, cap: u64) -> Option<Region> {
    let settings = Settings::new(default_lives(), cap)?;
    let number = RegionNumber::new(2)?;
    Some(Region::new(alloc, number, settings))
}

// Returns the result of taking in the bundle of these facts; `None` if there is no memory for the
// bundle.
fn take(alloc: Global, region: &mut Region, facts: &[Retired]) -> Option<Result<u16, TakeError>> {
    let bytes = bundle_of(alloc, facts)?;
    Some(region.take_in(alloc, bytes.as_slice()))
}

fn is_json(reply: &Reply, status: u16, body: &str) -> bool {
    match &reply.body {
        Payload::Json(bytes) => {
            reply.status.number() == status && bytes.as_slice() == body.as_bytes()
        }
        _ => false,
    }
}

// The facts held before a bundle of three.
const FIRST: [Retired; 1] = [((1, 1), (1, 9))];

// What running out of memory may leave: no fact of the bundle, the first, the first two, or all.
#[rattlefmt::skip]
static LEFT: [&[Retired]; 4] = [
    &FIRST,
    &[((1, 1), (1, 9)), ((1, 2), (1, 9))],
    &[((1, 1), (1, 9)), ((1, 2), (1, 9)), ((1, 3), (1, 9))],
    &[((1, 1), (1, 9)), ((1, 2), (1, 9)), ((1, 3), (1, 9)), ((3, 1), (1, 9))],
];

// Takes a bundle of three in. Returns the result, how many of its facts are held then, and whether
// they are the first.
fn left_in(alloc: Global, region: &mut Region) -> Option<(Result<u16, TakeError>, usize, bool)> {
    if take(alloc, region, &FIRST) != Some(Ok(1)) {
        return None;
    }
    let facts = [((1, 2), (1, 9)), ((1, 3), (1, 9)), ((3, 1), (1, 9))];
    let result = take(alloc, region, &facts)?;
    let new = match region.len() {
        1 => 0,
        2 => 1,
        3 => 2,
        _ => 3,
    };
    Some((result, new, holds(alloc, region, LEFT[new])))
}

fn left(alloc: Global) -> Option<(Result<u16, TakeError>, usize, bool)> {
    match new_region(alloc, 5) {
        Some(mut region) => {
            let left = left_in(alloc, &mut region);
            drop(region);
            left
        }
        None => None,
    }
}

// All facts are in, or the first ones if memory ran out.
fn is_left(left: (Result<u16, TakeError>, usize, bool)) -> bool {
    match left {
        (Ok(count), new, are_first) => (count, new, are_first) == (3, 3, true),
        (Err(error), _, are_first) => error == TakeError::Memory && are_first,
    }
}

#[test]
fn memory_leaves_the_first_facts(rt: HostRuntime) -> Result<(), Fail> {
    let left = left(rt.alloc()).ok_or("no memory")?;
    assert!(rt; is_left(left), "{left:?}");
    Ok(())
}

// ---- a request

const FORM: &[u8] = b"kind=public&scope=read&redirects=a:b";

// The request to add a client.
fn registration(alloc: Global) -> Option<Request> {
    match Params::read(alloc, FORM) {
        Ok(params) => Some(Request {
            endpoint: Endpoint::AddClient,
            params,
            authorization: None,
            subject: None,
            operator: None,
        }),
        Err(_) => None,
    }
}

// Returns whether the reply has the client's id, with a record of its fact.
fn is_added(handled: &Handled) -> bool {
    handled.logged.is_some() && is_json(&handled.reply, 201, "{\"client_id\":\"c2-1\"}")
}

fn is_handled(alloc: Global, region: &mut Region, now: Moment, request: &Request) -> bool {
    match region.handle(alloc, now, &[7; 6], request) {
        Ok(handled) => {
            let is_so = is_added(&handled);
            drop(handled);
            is_so
        }
        Err(_) => false,
    }
}

fn is_answered(alloc: Global, region: &mut Region, request: &Request) -> Option<bool> {
    let now = Moment::new(1_000)?;
    Some(is_handled(alloc, region, now, request))
}

// Returns whether the client is added, and its fact held.
fn adds_client(alloc: Global, region: &mut Region) -> bool {
    match registration(alloc) {
        Some(request) => is_answered(alloc, region, &request) == Some(true) && region.len() == 1,
        None => false,
    }
}

fn handles(alloc: Global) -> bool {
    match new_region(alloc, 2) {
        Some(mut region) => {
            let is_so = adds_client(alloc, &mut region);
            drop(region);
            is_so
        }
        None => false,
    }
}

#[test]
fn a_request_is_handled_at_once(rt: HostRuntime) {
    assert!(rt; handles(rt.alloc()));
}
