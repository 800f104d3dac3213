//! Sign-outs of a subject: which families they end, in every order of the facts, and which is the
//! last.

use super::facts::{ANN, Says, Told};
use super::orders::{Both, Case, Row, in_order, tells};
use super::{ADDED, CODE, DEAD, GIVEN, ISSUED, LIVE, REDEEMED, USED};
use std::alloc::Global;
use tk_fact::Subject;
use tk_handle::{Kind, Moment};

const BOB: &[u8] = b"\x00\x03bob";

const ENDED: &[Row] = &[
    ("the code", CODE, DEAD),
    ("access of 1:4", ((1, 4), Kind::Access, 42), DEAD),
    ("refresh of 1:4", ((1, 4), Kind::Refresh, 45), DEAD),
];

const KEPT: &[Row] = &[
    ("the code", CODE, USED),
    ("access of 1:4", ((1, 4), Kind::Access, 42), LIVE),
    ("refresh of 1:4", ((1, 4), Kind::Refresh, 45), LIVE),
];

// A family whose code began at 1,000, who signs out and when, and the standing of the code and both
// tokens then.
#[rattlefmt::skip]
const SIGN_OUTS: &[Case] = &[
    // The code began in the second of the sign-out: it is dead from the start.
    ("in the second of the code", &[ADDED, GIVEN, ISSUED, REDEEMED, ((2, 1), Says::SubjectOut(ANN, 1_000))], 120, ENDED),
    ("after it", &[ADDED, GIVEN, ISSUED, REDEEMED, ((2, 1), Says::SubjectOut(ANN, 1_020))], 120, ENDED),
    ("at the last moment", &[ADDED, GIVEN, ISSUED, REDEEMED, ((2, 1), Says::SubjectOut(ANN, 253_402_300_799))], 120, ENDED),
    ("before it", &[ADDED, GIVEN, ISSUED, REDEEMED, ((2, 1), Says::SubjectOut(ANN, 999))], 120, KEPT),
    ("another subject", &[ADDED, GIVEN, ISSUED, REDEEMED, ((2, 1), Says::SubjectOut(BOB, 1_020))], 120, KEPT),
];

#[test]
fn a_sign_out_kills_what_began_before_it(rt: HostRuntime) {
    tells(&rt, rt.alloc(), SIGN_OUTS);
}

// Two sign-outs of ann, the later of which didn't arrive last, and one of bob.
const OUTS: &[Told] = &[
    ((1, 1), Says::SubjectOut(ANN, 1_020)),
    ((1, 2), Says::SubjectOut(BOB, 5_000)),
    ((2, 1), Says::SubjectOut(ANN, 1_000)),
];

// A subject, and the last moment at which it signed out.
const LAST: &[(&[u8], Option<u64>)] = &[
    (b"ann", Some(1_020)),
    (b"bob", Some(5_000)),
    (b"an", None),
    (b"anne", None),
];

// Returns whether the subject signed out last at this moment, and the walk agrees at moments around
// it.
fn is_last(both: &Both, subject: &Subject, want: Option<u64>) -> bool {
    let last = match both.ledger.signed_out(subject) {
        Some(moment) => Some(moment.seconds()),
        None => None,
    };
    for now in [0, 1_000, 1_019, 1_020, 1_021, 5_000, 5_001] {
        let told = match Moment::new(now) {
            Some(now) => both.plain.is_signed_out(subject, now),
            None => return false,
        };
        let reached = match want {
            Some(last) => now <= last,
            None => false,
        };
        if told != reached {
            return false;
        }
    }
    last == want
}

fn last_is(alloc: Global, both: &Both, subject: &[u8], want: Option<u64>) -> bool {
    match &Subject::read(alloc, subject) {
        Ok(subject) => is_last(both, subject, want),
        Err(_) => false,
    }
}

fn are_last(alloc: Global, both: &Both) -> bool {
    for &(subject, want) in LAST {
        if !last_is(alloc, both, subject, want) {
            return false;
        }
    }
    true
}

fn are_last_in_order(alloc: Global, order: usize) -> bool {
    match in_order(alloc, OUTS, order) {
        Some(both) => {
            let are_last = are_last(alloc, &both);
            drop(both);
            are_last
        }
        None => false,
    }
}

// Returns the order in which another last moment is reported of a subject.
fn other_last(alloc: Global) -> Option<usize> {
    for order in 0..6 {
        if !are_last_in_order(alloc, order) {
            return Some(order);
        }
    }
    None
}

#[test]
fn the_last_sign_out_is_told_in_every_order(rt: HostRuntime) {
    let wrong = other_last(rt.alloc());
    assert!(rt; wrong.is_none(), "{wrong:?}");
}
