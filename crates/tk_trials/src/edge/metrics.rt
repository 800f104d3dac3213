//! Tests of `/metrics`: which connections reach it, and the text that is shown.

use super::{is_answered, new_edge};
use std::alloc::{AllocError, Global};
use tk_edge::{Edge, PathSet};
use tk_message::StatusCode;

const TEXT: &[u8] = b"tokend_connections_total 2\n";

const SHOWN: &[u8] =
    b"HTTP/1.1 200 OK\r\nContent-Type: text/plain; version=0.0.4\r\nContent-Length: 27\r\n\
    Cache-Control: no-store\r\nPragma: no-cache\r\nConnection: close\r\n\r\n\
    tokend_connections_total 2\n";

const EMPTY: &[u8] =
    b"HTTP/1.1 200 OK\r\nContent-Type: text/plain; version=0.0.4\r\nContent-Length: 0\r\n\
    Cache-Control: no-store\r\nPragma: no-cache\r\nConnection: close\r\n\r\n";

const UNKNOWN: &[u8] =
    b"HTTP/1.1 404 Not Found\r\nContent-Type: application/json\r\nContent-Length: 21\r\n\
    Cache-Control: no-store\r\nPragma: no-cache\r\nConnection: close\r\n\r\n\
    {\"error\":\"not_found\"}";

const ONLY_GET: &[u8] =
    b"HTTP/1.1 405 Method Not Allowed\r\nContent-Type: application/json\r\nContent-Length: 30\r\n\
    Cache-Control: no-store\r\nPragma: no-cache\r\nConnection: close\r\nAllow: GET\r\n\r\n\
    {\"error\":\"method_not_allowed\"}";

const SEALED: &[u8] =
    b"HTTP/1.1 503 Service Unavailable\r\nContent-Type: application/json\r\nContent-Length: 35\r\n\
    Cache-Control: no-store\r\nPragma: no-cache\r\nConnection: close\r\n\r\n\
    {\"error\":\"temporarily_unavailable\"}";

const GET: &[u8] = b"GET /metrics HTTP/1.1\r\n\r\n";

// Returns whether a request gets this reply over a connection that reaches these paths.
fn gets(
    alloc: Global,
    edge: &mut Edge,
    paths: PathSet,
    request: &[u8],
    told: (StatusCode, &[u8]),
) -> bool {
    let reach = edge.reach(paths);
    is_answered(alloc, edge, reach, request, told)
}

// Returns whether the text is shown to operators, and no other method nor a client gets it.
fn is_for_operators(alloc: Global, edge: &mut Edge) -> bool {
    let found = (StatusCode::Ok, SHOWN);
    let unknown = (StatusCode::NotFound, UNKNOWN);
    let refused = (StatusCode::MethodNotAllowed, ONLY_GET);
    gets(alloc, edge, PathSet::Admin, GET, found)
        && gets(alloc, edge, PathSet::All, GET, found)
        && gets(alloc, edge, PathSet::Clients, GET, unknown)
        && [
            b"HEAD /metrics HTTP/1.1\r\n\r\n".as_slice(),
            b"POST /metrics HTTP/1.1\r\nContent-Length: 0\r\n\r\n".as_slice(),
        ]
        .iter()
        .all(|request| gets(alloc, edge, PathSet::All, request, refused))
}

// Returns the first step that goes wrong: the text is shown, then an empty one, then none, and a
// sealed edge shows none.
fn first_wrong(alloc: Global, edge: &mut Edge) -> Result<Option<&'static str>, AllocError> {
    let unknown = (StatusCode::NotFound, UNKNOWN);
    if !gets(alloc, edge, PathSet::All, GET, unknown) {
        return Ok(Some("before there is a text"));
    }
    let text = Vec::from_slice(alloc, TEXT)?;
    edge.set_metrics(Some(text));
    if !is_for_operators(alloc, edge) {
        return Ok(Some("with a text"));
    }
    edge.set_metrics(Some(Vec::new(alloc)));
    if !gets(alloc, edge, PathSet::All, GET, (StatusCode::Ok, EMPTY)) {
        return Ok(Some("with an empty text"));
    }
    edge.set_metrics(None);
    if !gets(alloc, edge, PathSet::All, GET, unknown) {
        return Ok(Some("without a text"));
    }
    let text = Vec::from_slice(alloc, TEXT)?;
    edge.set_metrics(Some(text));
    edge.seal();
    let sealed = (StatusCode::ServiceUnavailable, SEALED);
    if !gets(alloc, edge, PathSet::All, GET, sealed) {
        return Ok(Some("at a sealed edge"));
    }
    Ok(None)
}

#[test]
fn metrics_are_shown_to_operators(rt: HostRuntime) {
    let wrong = match new_edge(rt.alloc()) {
        Some(mut edge) => {
            let wrong = first_wrong(rt.alloc(), &mut edge);
            drop(edge);
            wrong
        }
        None => Ok(Some("no edge")),
    };
    assert!(rt; matches!(wrong, Ok(None)), "{wrong:?}");
}
