//! Tests of the lives that a client is registered with: they bound what it gets, within the lives
//! of the server.
//!
//! In the tests each allocation fails once, one run for each, as docs/GATE.md describes. A request
//! that runs out of memory makes no fact, and is sent again.

use super::new_edge;
use std::alloc::Global;
use std::test::Fail;
use tk_edge::{Edge, PathSet, Reach};
use tk_fact::{Body, Fact};
use tk_handle::Moment;

// The moments at which what a fact makes ends: the family of a code, an access token with a refresh
// token, or an access token alone.
#[derive(Clone, Copy, PartialEq, Eq)]
enum Ends {
    Family(u64),
    Both(u64, u64),
    Access(u64),
    Nothing,
}

fn ends_of(body: &Body) -> Ends {
    match body {
        Body::CodeIssued(code) => Ends::Family(code.family_end.seconds()),
        Body::CodeRedeemed(fact) => {
            Ends::Both(fact.access.expiry.seconds(), fact.refresh.expiry.seconds())
        }
        Body::RefreshRotated(fact) => {
            Ends::Both(fact.access.expiry.seconds(), fact.refresh.expiry.seconds())
        }
        Body::AccessRefreshed(fact) => Ends::Access(fact.access.expiry.seconds()),
        _ => Ends::Nothing,
    }
}

// Returns the ends of the fact in a record: the fact is behind six bytes of the bundle and two of
// its length.
fn recorded(alloc: Global, record: &[u8]) -> Option<Ends> {
    match Fact::read(alloc, record.get(8..)?) {
        Ok(fact) => {
            let ends = ends_of(&fact.body);
            drop(fact);
            Some(ends)
        }
        Err(_) => None,
    }
}

// Sends a request at 1,000. Returns the ends of the fact that it makes; `None` if it makes no fact,
// or if memory for reading the record runs out.
fn made(alloc: Global, edge: &mut Edge, request: &[u8]) -> Option<Ends> {
    let now = Moment::new(1_000)?;
    match edge.answer(alloc, Reach::plain(PathSet::All), now, &[0; 6], request) {
        Ok(answer) => {
            let ends = match &answer.logged {
                Some(record) => recorded(alloc, record.as_slice()),
                None => None,
            };
            drop(answer);
            ends
        }
        Err(_) => None,
    }
}

// Sends a request, and once more if it made no fact.
fn made_at_last(alloc: Global, edge: &mut Edge, request: &[u8]) -> Option<Ends> {
    let before = edge.region().len();
    match made(alloc, edge, request) {
        Some(ends) => Some(ends),
        None if edge.region().len() == before => made(alloc, edge, request),
        None => None,
    }
}

// The requests of a login behind the registration of its client: a consent, a code, its redemption
// and a refresh. The random words of all handles are 0.
const LOGIN: [&[u8]; 4] = [
    b"POST /admin/consent HTTP/1.1\r\nContent-Length: 43\r\n\r\n\
        client_id=c1-1&subject=ann&scope=read+write",
    b"GET /authorize?response_type=code&client_id=c1-1 HTTP/1.1\r\nX-Subject: ann\r\n\r\n",
    b"POST /token HTTP/1.1\r\nContent-Length: 119\r\n\r\n\
        grant_type=authorization_code\
        &code=AQEAAQAAAAAAAAADAAAAAAAAAAAAAAAAAAAAAAAAAAAAAAAA\
        &client_id=c1-1&client_secret=s3cret",
    b"POST /token HTTP/1.1\r\nContent-Length: 123\r\n\r\n\
        grant_type=refresh_token\
        &refresh_token=AQMAAQAAAAAAAAAEAAAAAAAAAAAAAAAAAAAAAAAAAAAAAAAA\
        &client_id=c1-1&client_secret=s3cret",
];

// A name, a registration, and the ends of the code, of its tokens, and of what a refresh mints.
type Row = (&'static str, &'static [u8], [Ends; 3]);

// The server's lives are an hour, a day and 30 days.
const ROWS: &[Row] = &[
    (
        "no lives",
        b"POST /admin/client HTTP/1.1\r\nContent-Length: 81\r\n\r\n\
            kind=confidential&secret=s3cret&scope=read+write&redirects=https://app.example/cb",
        [
            Ends::Family(2_593_000),
            Ends::Both(4_600, 87_400),
            Ends::Both(4_600, 87_400),
        ],
    ),
    (
        "shorter lives",
        b"POST /admin/client HTTP/1.1\r\nContent-Length: 134\r\n\r\n\
            kind=confidential&secret=s3cret&scope=read+write&redirects=https://app.example/cb\
            &access_life=600&refresh_life=7200&family_life=604800",
        [
            Ends::Family(605_800),
            Ends::Both(1_600, 8_200),
            Ends::Both(1_600, 8_200),
        ],
    ),
    (
        "longer lives",
        b"POST /admin/client HTTP/1.1\r\nContent-Length: 143\r\n\r\n\
            kind=confidential&secret=s3cret&scope=read+write&redirects=https://app.example/cb\
            &access_life=86400&refresh_life=31536000&family_life=315360000",
        [
            Ends::Family(2_593_000),
            Ends::Both(4_600, 87_400),
            Ends::Both(4_600, 87_400),
        ],
    ),
    (
        "a shorter family alone",
        b"POST /admin/client HTTP/1.1\r\nContent-Length: 97\r\n\r\n\
            kind=confidential&secret=s3cret&scope=read+write&redirects=https://app.example/cb\
            &family_life=300",
        [
            Ends::Family(1_300),
            Ends::Both(1_300, 1_300),
            Ends::Both(1_300, 1_300),
        ],
    ),
    (
        "a refresh token that is kept",
        b"POST /admin/client HTTP/1.1\r\nContent-Length: 128\r\n\r\n\
            kind=confidential&secret=s3cret&scope=read+write&redirects=https://app.example/cb\
            &refresh=kept&access_life=600&refresh_life=7200",
        [
            Ends::Family(2_593_000),
            Ends::Both(1_600, 8_200),
            Ends::Access(1_600),
        ],
    ),
];

// Returns the ends of a code, of its tokens, and of what a refresh mints.
fn login(alloc: Global, edge: &mut Edge, registration: &[u8]) -> Option<[Ends; 3]> {
    let [consent, code, redemption, refresh] = LOGIN;
    for request in [registration, consent] {
        if made_at_last(alloc, edge, request)? != Ends::Nothing {
            return None;
        }
    }
    let code = made_at_last(alloc, edge, code)?;
    let tokens = made_at_last(alloc, edge, redemption)?;
    Some([code, tokens, made_at_last(alloc, edge, refresh)?])
}

fn login_anew(alloc: Global, registration: &[u8]) -> Option<[Ends; 3]> {
    match new_edge(alloc) {
        Some(mut edge) => {
            let ends = login(alloc, &mut edge, registration);
            drop(edge);
            ends
        }
        None => None,
    }
}

#[test]
fn the_lives_of_a_client_bound_what_it_gets(rt: HostRuntime) -> Result<(), Fail> {
    for (name, registration, want) in ROWS {
        let ends = login_anew(rt.alloc(), registration).ok_or("no memory")?;
        assert!(rt; ends == *want, "{name}");
    }
    Ok(())
}
