//! Tests of which paths are served: a path that a connection doesn't reach is unknown.

use super::{is_answered, new_edge};
use std::alloc::Global;
use tk_edge::{Counted, Discard, Edge, PathSet, Reach, Served};
use tk_handle::Moment;
use tk_message::StatusCode;

// A reply with its status.
type Told = (StatusCode, &'static [u8]);

const UNKNOWN: Told = (
    StatusCode::NotFound,
    b"HTTP/1.1 404 Not Found\r\nContent-Type: application/json\r\nContent-Length: 21\r\n\
        Cache-Control: no-store\r\nPragma: no-cache\r\nConnection: close\r\n\r\n\
        {\"error\":\"not_found\"}",
);

const ONLY_GET: Told = (
    StatusCode::MethodNotAllowed,
    b"HTTP/1.1 405 Method Not Allowed\r\nContent-Type: application/json\r\nContent-Length: 30\r\n\
        Cache-Control: no-store\r\nPragma: no-cache\r\nConnection: close\r\nAllow: GET\r\n\r\n\
        {\"error\":\"method_not_allowed\"}",
);

const ONLY_POST: Told = (
    StatusCode::MethodNotAllowed,
    b"HTTP/1.1 405 Method Not Allowed\r\nContent-Type: application/json\r\nContent-Length: 30\r\n\
        Cache-Control: no-store\r\nPragma: no-cache\r\nConnection: close\r\nAllow: POST\r\n\r\n\
        {\"error\":\"method_not_allowed\"}",
);

const GET_AND_POST: Told = (
    StatusCode::MethodNotAllowed,
    b"HTTP/1.1 405 Method Not Allowed\r\nContent-Type: application/json\r\nContent-Length: 30\r\n\
        Cache-Control: no-store\r\nPragma: no-cache\r\nConnection: close\r\n\
        Allow: GET, POST\r\n\r\n\
        {\"error\":\"method_not_allowed\"}",
);

// The reply to a body that is cut short.
const CUT: Told = (
    StatusCode::BadRequest,
    b"HTTP/1.1 400 Bad Request\r\nContent-Type: application/json\r\nContent-Length: 23\r\n\
        Cache-Control: no-store\r\nPragma: no-cache\r\nConnection: close\r\n\r\n\
        {\"error\":\"bad_request\"}",
);

const TOO_LARGE: Told = (
    StatusCode::ContentTooLarge,
    b"HTTP/1.1 413 Content Too Large\r\nContent-Type: application/json\r\nContent-Length: 21\r\n\
        Cache-Control: no-store\r\nPragma: no-cache\r\nConnection: close\r\n\r\n\
        {\"error\":\"too_large\"}",
);

// The vector of a region without facts.
const VECTOR: Told = (
    StatusCode::Ok,
    b"HTTP/1.1 200 OK\r\nContent-Type: application/octet-stream\r\nContent-Length: 6\r\n\
        Cache-Control: no-store\r\nPragma: no-cache\r\nConnection: close\r\n\r\nOTV1\x00\x00",
);

// A request, and the reply to it at `Clients`, at `Admin` and at `All`.
type Row = (&'static [u8], Told, Told, Told);

// A method that no path has, so that a path that is served names its own methods.
const PATHS: &[Row] = &[
    (
        b"PUT /authorize HTTP/1.1\r\n\r\n",
        ONLY_GET,
        ONLY_GET,
        ONLY_GET,
    ),
    (
        b"PUT /token HTTP/1.1\r\n\r\n",
        ONLY_POST,
        ONLY_POST,
        ONLY_POST,
    ),
    (
        b"PUT /introspect HTTP/1.1\r\n\r\n",
        ONLY_POST,
        ONLY_POST,
        ONLY_POST,
    ),
    (
        b"PUT /revoke HTTP/1.1\r\n\r\n",
        ONLY_POST,
        ONLY_POST,
        ONLY_POST,
    ),
    (
        b"PUT /sync/vector HTTP/1.1\r\n\r\n",
        UNKNOWN,
        UNKNOWN,
        ONLY_GET,
    ),
    (
        b"PUT /sync/pull HTTP/1.1\r\n\r\n",
        UNKNOWN,
        UNKNOWN,
        ONLY_POST,
    ),
    (
        b"PUT /sync/push HTTP/1.1\r\n\r\n",
        UNKNOWN,
        UNKNOWN,
        ONLY_POST,
    ),
    (b"PUT /unknown HTTP/1.1\r\n\r\n", UNKNOWN, UNKNOWN, UNKNOWN),
    (
        b"GET /.well-known/oauth-authorization-server HTTP/1.1\r\n\r\n",
        UNKNOWN,
        UNKNOWN,
        UNKNOWN,
    ),
    (b"PUT /health HTTP/1.1\r\n\r\n", UNKNOWN, UNKNOWN, UNKNOWN),
    (b"GET /metrics HTTP/1.1\r\n\r\n", UNKNOWN, UNKNOWN, UNKNOWN),
    (
        b"GET /sync/vector HTTP/1.1\r\n\r\n",
        UNKNOWN,
        UNKNOWN,
        VECTOR,
    ),
];

// The same of the paths of operators.
const ADMIN_PATHS: &[Row] = &[
    (
        b"PUT /admin/client HTTP/1.1\r\n\r\n",
        UNKNOWN,
        GET_AND_POST,
        GET_AND_POST,
    ),
    (
        b"PUT /admin/retire HTTP/1.1\r\n\r\n",
        UNKNOWN,
        ONLY_POST,
        ONLY_POST,
    ),
    (
        b"PUT /admin/consent HTTP/1.1\r\n\r\n",
        UNKNOWN,
        ONLY_POST,
        ONLY_POST,
    ),
    (
        b"PUT /admin/withdraw HTTP/1.1\r\n\r\n",
        UNKNOWN,
        ONLY_POST,
        ONLY_POST,
    ),
    (
        b"PUT /admin/subject HTTP/1.1\r\n\r\n",
        UNKNOWN,
        ONLY_GET,
        ONLY_GET,
    ),
    (
        b"PUT /admin/signout HTTP/1.1\r\n\r\n",
        UNKNOWN,
        ONLY_POST,
        ONLY_POST,
    ),
    (
        b"PUT /admin/secret HTTP/1.1\r\n\r\n",
        UNKNOWN,
        ONLY_POST,
        ONLY_POST,
    ),
    (
        b"PUT /admin/logout HTTP/1.1\r\n\r\n",
        UNKNOWN,
        ONLY_POST,
        ONLY_POST,
    ),
];

// Bodies whose length is at a limit or one above it. None is sent, so that one within its limit is
// cut short.
const BODIES: &[Row] = &[
    (
        b"POST /token HTTP/1.1\r\nContent-Length: 16384\r\n\r\n",
        CUT,
        CUT,
        CUT,
    ),
    (
        b"POST /token HTTP/1.1\r\nContent-Length: 16385\r\n\r\n",
        TOO_LARGE,
        TOO_LARGE,
        TOO_LARGE,
    ),
    (
        b"POST /admin/client HTTP/1.1\r\nContent-Length: 16385\r\n\r\n",
        UNKNOWN,
        TOO_LARGE,
        TOO_LARGE,
    ),
    (
        b"POST /sync/push HTTP/1.1\r\nContent-Length: 1049600\r\n\r\n",
        UNKNOWN,
        UNKNOWN,
        CUT,
    ),
    (
        b"POST /sync/push HTTP/1.1\r\nContent-Length: 1049601\r\n\r\n",
        UNKNOWN,
        UNKNOWN,
        TOO_LARGE,
    ),
];

// Returns whether the front of a connection's bytes gets this reply, or is waited for if there is
// none.
fn is_served(
    alloc: Global,
    edge: &mut Edge,
    reach: Reach,
    bytes: &[u8],
    is_over: bool,
    told: Option<Told>,
) -> bool {
    let Some(now) = Moment::new(1_000) else {
        return false;
    };
    let mut log = Discard;
    let mut writer = Counted::new(Vec::new(alloc));
    let result = edge.serve_front(
        alloc,
        reach,
        bytes,
        is_over,
        &mut writer,
        &mut log,
        false,
        now,
        &[0; 6],
    );
    let written = writer.inner.as_slice();
    match (result, told) {
        (Ok(Some((Served::Done(got), _))), Some((status, reply))) => {
            got == status && written == reply
        }
        (Ok(None), None) => written.is_empty(),
        _ => false,
    }
}

// Returns whether a request gets this reply at a reach, as a stream and over a connection.
fn is_told(alloc: Global, edge: &mut Edge, reach: Reach, request: &[u8], told: Told) -> bool {
    is_answered(alloc, edge, reach, request, told)
        && is_served(alloc, edge, reach, request, true, Some(told))
}

// Returns the first request that doesn't get its reply at some reach.
fn missed(alloc: Global, edge: &mut Edge, rows: &'static [Row]) -> Option<&'static [u8]> {
    for (request, clients, admin, all) in rows {
        let is_so = is_told(
            alloc,
            edge,
            Reach::plain(PathSet::Clients),
            request,
            *clients,
        ) && is_told(alloc, edge, Reach::plain(PathSet::Admin), request, *admin)
            && is_told(alloc, edge, Reach::plain(PathSet::All), request, *all);
        if !is_so {
            return Some(request);
        }
    }
    None
}

// Returns the first of these requests that doesn't get its reply from a new edge.
fn missed_anew(alloc: Global, rows: &'static [Row]) -> Option<&'static [u8]> {
    match new_edge(alloc) {
        Some(mut edge) => {
            let miss = missed(alloc, &mut edge, rows);
            drop(edge);
            miss
        }
        None => Some(b"no edge"),
    }
}

#[test]
fn a_path_that_is_not_reached_is_unknown(rt: HostRuntime) {
    let miss = missed_anew(rt.alloc(), PATHS);
    assert!(rt; miss.is_none(), "{miss:?}");
}

#[test]
fn a_path_of_operators_that_is_not_reached_is_unknown(rt: HostRuntime) {
    let miss = missed_anew(rt.alloc(), ADMIN_PATHS);
    assert!(rt; miss.is_none(), "{miss:?}");
}

#[test]
fn bodies_have_the_limits_of_their_paths(rt: HostRuntime) {
    let miss = missed_anew(rt.alloc(), BODIES);
    assert!(rt; miss.is_none(), "{miss:?}");
}

const LARGEST_PUSH: &[u8] = b"POST /sync/push HTTP/1.1\r\nContent-Length: 1049600\r\n\r\n";

// Returns whether a push is waited for at `All`, and refused without its body elsewhere.
fn is_waited_for_at_all(alloc: Global, edge: &mut Edge) -> [bool; 3] {
    [
        is_served(
            alloc,
            edge,
            Reach::plain(PathSet::Clients),
            LARGEST_PUSH,
            false,
            Some(UNKNOWN),
        ),
        is_served(
            alloc,
            edge,
            Reach::plain(PathSet::Admin),
            LARGEST_PUSH,
            false,
            Some(UNKNOWN),
        ),
        is_served(
            alloc,
            edge,
            Reach::plain(PathSet::All),
            LARGEST_PUSH,
            false,
            None,
        ),
    ]
}

#[test]
fn a_push_is_waited_for_only_if_it_is_reached(rt: HostRuntime) {
    let ends = match new_edge(rt.alloc()) {
        Some(mut edge) => {
            let ends = is_waited_for_at_all(rt.alloc(), &mut edge);
            drop(edge);
            ends
        }
        None => [false; 3],
    };
    let [clients, admin, all] = ends;
    assert!(rt; clients, "a push by a client");
    assert!(rt; admin, "a push by an operator");
    assert!(rt; all, "a push by a region");
}
