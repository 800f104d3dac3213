//! Requests whose bytes come in pieces, or not all of which come.

use super::frail::{Fails, FrailSink};
use super::talks::{TALKS, Talk};
use super::{make_facts, new_edge};
use std::alloc::Global;
use tk_edge::{Edge, Fault, PathSet, Reach, Served, Taken};
use tk_handle::Moment;
use tk_message::StatusCode;

// Serves the bytes that have come, and logs bundles that are taken in.
fn serve(
    alloc: Global,
    edge: &mut Edge,
    bytes: &[u8],
    is_over: bool,
    writer: &mut FrailSink,
    log: &mut FrailSink,
) -> Result<Option<(Served, Taken)>, Fault> {
    let Some(now) = Moment::new(1_000) else {
        return Ok(None);
    };
    edge.serve_front(
        alloc,
        Reach::plain(PathSet::All),
        bytes,
        is_over,
        writer,
        log,
        true,
        now,
        &[0; 6],
    )
}

// Serves a request that comes in pieces of `step` bytes, and returns how serving it ended. If all
// pieces aren't enough, the client ends its side. `None` if serving took less than all that had
// come, or didn't end.
pub(super) fn serve_pieces(
    alloc: Global,
    edge: &mut Edge,
    bytes: &[u8],
    step: usize,
    writer: &mut FrailSink,
    log: &mut FrailSink,
) -> Option<Result<Served, Fault>> {
    for count in 0..=bytes.len().div_ceil(step.max(1)) {
        let come = count.saturating_mul(step).min(bytes.len());
        match serve(alloc, edge, &bytes[..come], false, writer, log) {
            Ok(None) => {}
            Ok(Some((served, taken))) if taken.size == come => return Some(Ok(served)),
            Ok(Some(_)) => return None,
            Err(fault) => return Some(Err(fault)),
        }
    }
    match serve(alloc, edge, bytes, true, writer, log) {
        Ok(Some((served, taken))) if taken.size == bytes.len() => Some(Ok(served)),
        Ok(_) => None,
        Err(fault) => Some(Err(fault)),
    }
}

// The reply to a request whose client ends its side too early.
const CUT: &[u8] = b"HTTP/1.1 400 Bad Request\r\nContent-Type: application/json\r\n\
    Content-Length: 23\r\nCache-Control: no-store\r\nPragma: no-cache\r\nConnection: close\r\n\r\n\
    {\"error\":\"bad_request\"}";

// Returns whether this many bytes of a request are waited for while more may follow, without a call
// of client or log, and a client that ends its side behind them gets a refusal and changes nothing.
fn is_cut_at(alloc: Global, edge: &mut Edge, talk: &Talk, come: usize) -> bool {
    let bytes = &talk.request[..come.min(talk.request.len())];
    let facts = edge.region().len();
    let mut writer = FrailSink::new(alloc, 20, Fails::Never);
    let mut log = FrailSink::new(alloc, 20, Fails::Never);
    let is_partial = matches!(
        serve(alloc, edge, bytes, false, &mut writer, &mut log),
        Ok(None)
    );
    let is_waited_for = is_partial && writer.calls == 0;
    let is_refused = matches!(
        serve(alloc, edge, bytes, true, &mut writer, &mut log),
        Ok(Some((Served::Done(StatusCode::BadRequest), _)))
    );
    let is_unchanged = edge.region().len() == facts && !edge.sealed() && log.calls == 0;
    is_waited_for && is_refused && is_unchanged && writer.bytes.as_slice() == CUT
}

// Returns the first number of bytes, less than all of a request, at which `is_cut_at` is false.
fn miscut_at(alloc: Global, edge: &mut Edge, talk: &Talk) -> Option<usize> {
    for come in 1..talk.request.len() {
        if !is_cut_at(alloc, edge, talk, come) {
            return Some(come);
        }
    }
    None
}

// Returns the first number of bytes at which `is_cut_at` is false, at an edge that answered only
// the requests before.
fn miscut(alloc: Global, talk: &Talk) -> Option<usize> {
    match new_edge(alloc) {
        Some(mut edge) => {
            let is_ready = make_facts(alloc, &mut edge, talk.before);
            let miss = miscut_at(alloc, &mut edge, talk);
            drop(edge);
            if is_ready { miss } else { Some(0) }
        }
        None => Some(0),
    }
}

#[test]
fn a_request_that_is_not_whole_changes_nothing(rt: HostRuntime) {
    for talk in TALKS {
        let (name, miss) = (talk.name, miscut(rt.alloc(), talk));
        assert!(rt; miss.is_none(), "{name}: {miss:?} bytes");
    }
}
