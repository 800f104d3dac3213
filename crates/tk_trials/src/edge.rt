//! Tests of connections whose bytes come in pieces or whose devices fail, and of which paths are
//! served, which no row of `check/rows/` can show.
//!
//! `serving` has the tests of devices, `pieces` those of requests that haven't come whole, `frail`
//! a device, and `talks` the requests. `reaches` has the tests of paths, `metrics` those of
//! `/metrics`, `lives` those of the lives of clients, and `secrets` those of their secrets.

mod frail;
mod lives;
mod metrics;
mod pieces;
mod reaches;
mod secrets;
mod serving;
mod talks;

use crate::region::default_lives;
use std::alloc::Global;
use tk_edge::{Edge, PathSet, Reach, Terms};
use tk_handle::{Moment, RegionNumber};
use tk_message::StatusCode;
use tk_region::{Region, Settings};

// Returns an edge over region 1 without facts, with a program's default lives.
fn new_edge(alloc: Global) -> Option<Edge> {
    edge_of(alloc, 1)
}

// Returns such an edge over the region of this number.
fn edge_of(alloc: Global, number: u16) -> Option<Edge> {
    let settings = Settings::new(default_lives(), 1_000_000)?;
    let number = RegionNumber::new(number)?;
    Some(Edge::new(
        Region::new(alloc, number, settings),
        Terms::accept_all(alloc),
    ))
}

// Returns whether the bytes get this reply without devices, and make no record.
fn is_answered(
    alloc: Global,
    edge: &mut Edge,
    reach: Reach,
    bytes: &[u8],
    told: (StatusCode, &[u8]),
) -> bool {
    let Some(now) = Moment::new(1_000) else {
        return false;
    };
    let (status, reply) = told;
    match edge.answer(alloc, reach, now, &[0; 6], bytes) {
        Ok(answer) => {
            let is_bare = answer.logged.is_none();
            let is_told = answer.status == status && answer.bytes.as_slice() == reply;
            drop(answer);
            is_bare && is_told
        }
        Err(_) => false,
    }
}

// Returns whether the request gets a reply, and makes a fact.
fn makes_fact(alloc: Global, edge: &mut Edge, request: &[u8]) -> bool {
    let Some(now) = Moment::new(1_000) else {
        return false;
    };
    match edge.answer(alloc, Reach::plain(PathSet::All), now, &[0; 6], request) {
        Ok(answer) => {
            let is_made = answer.logged.is_some();
            drop(answer);
            is_made
        }
        Err(_) => false,
    }
}

fn make_facts(alloc: Global, edge: &mut Edge, requests: &[&[u8]]) -> bool {
    for request in requests {
        if !makes_fact(alloc, edge, request) {
            return false;
        }
    }
    true
}
