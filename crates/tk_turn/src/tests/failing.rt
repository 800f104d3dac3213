//! A history of turns whose log fails: each call of the log in turn, once and from then on.

use super::house::{Fails, House, new_house};
use crate::{Link, send};
use std::alloc::{AllocError, Global};
use std::test::Fail;

// What comes from the clients of three connections, and the places of the turn that follows.
struct Turn {
    heard: [&'static [u8]; 3],
    places: &'static [usize],
}

// The second turn has no record, so it calls no log. The others call the log twice each.
#[rattlefmt::skip]
const HISTORY: [Turn; 5] = [
    Turn { heard: [b"a.b.c", b"", b"q1"], places: &[0, 2] },
    Turn { heard: [b"", b"q2", b""], places: &[1] },
    Turn { heard: [b".", b"d.", b""], places: &[1, 0] },
    Turn { heard: [b"", b"e.", b"f.q3"], places: &[2, 1] },
    Turn { heard: [b"g.h", b"i.", b""], places: &[0, 1] },
];

// How often the history calls a log that doesn't fail.
const CALLS: usize = 8;

// What there is after the history: the bytes of the log, how many of them were flushed, all replies
// that each connection sent or may send, and whether no further request of it is read.
struct End {
    log: &'static [u8],
    kept: usize,
    replies: [&'static [u8]; 3],
    last: [bool; 3],
}

// Replies of the connections by the turn whose records are lost.
const FIRST: [&[u8]; 3] = [b"", b"!!!", b""];

const THIRD: [&[u8]; 3] = [b"a.b.", b"q2", b"q1!!"];

const FOURTH: [&[u8]; 3] = [b"a.b.c.!", b"q2d.", b"q1"];

const FIFTH: [&[u8]; 3] = [b"a.b.c.", b"q2d.e.", b"q1f.q3"];

const SOUND: [&[u8]; 3] = [b"a.b.c.g.", b"q2d.e.", b"q1f.q3"];

// Worked by hand. The first row has the end if the first call of the log fails, and so on; in the
// last row no call fails.
#[rattlefmt::skip]
const ENDS: [End; 9] = [
    End { log: b"a.", kept: 0, replies: FIRST, last: [true, true, true] },
    End { log: b"a.b.", kept: 0, replies: FIRST, last: [true, true, true] },
    End { log: b"a.b.d.", kept: 4, replies: THIRD, last: [true, true, false] },
    End { log: b"a.b.d.c.", kept: 4, replies: THIRD, last: [true, true, false] },
    End { log: b"a.b.d.c.f.", kept: 8, replies: FOURTH, last: [false, true, true] },
    End { log: b"a.b.d.c.f.e.", kept: 8, replies: FOURTH, last: [false, true, true] },
    End { log: b"a.b.d.c.f.e.g", kept: 12, replies: FIFTH, last: [true, true, false] },
    End { log: b"a.b.d.c.f.e.g.", kept: 12, replies: FIFTH, last: [true, true, false] },
    End { log: b"a.b.d.c.f.e.g.", kept: 14, replies: SOUND, last: [false, true, false] },
];

// Sends at most three bytes of a connection. Returns what is left of these replies, or `None` if
// other bytes were sent.
fn send_some<'a>(link: &mut Link, replies: &'a [u8]) -> Option<&'a [u8]> {
    let mut piece = [0u8; 3];
    let mut output = piece.as_mut_slice();
    let Ok(count) = send(link, &mut output) else {
        return None;
    };
    if count <= piece.len() {
        replies.strip_prefix(&piece[..count])
    } else {
        None
    }
}

impl House {
    // Hears what comes before a turn, and takes the turn. Returns whether the log kept its records.
    fn live(&mut self, alloc: Global, turn: &Turn) -> Result<bool, AllocError> {
        for (place, bytes) in turn.heard.iter().enumerate() {
            self.hear(alloc, place, bytes)?;
        }
        Ok(self.turn(turn.places))
    }

    // Sends some of each connection. Returns whether that begins what is left of these replies.
    fn send_some(&mut self, left: &mut [&'static [u8]; 3]) -> bool {
        for (link, replies) in self.links.iter_mut().zip(left.iter_mut()) {
            let Some(rest) = send_some(link, replies) else {
                return false;
            };
            *replies = rest;
        }
        true
    }

    // Lives through the history. Returns how many turns lost their records, or `None` if other
    // replies than these were sent.
    fn live_on(
        &mut self,
        alloc: Global,
        left: &mut [&'static [u8]; 3],
    ) -> Result<Option<usize>, AllocError> {
        let mut lost: usize = 0;
        for turn in &HISTORY {
            if !self.live(alloc, turn)? {
                lost = lost.saturating_add(1);
            }
            if !self.send_some(left) {
                return Ok(None);
            }
        }
        Ok(Some(lost))
    }

    // Returns whether each connection may send what is left of these replies and no more, and reads
    // a further request unless it is marked as the last.
    fn has_left(&self, left: &[&'static [u8]; 3], last: &[bool; 3]) -> bool {
        let mut links = self.links.iter();
        for (replies, is_last) in left.iter().zip(last.iter()) {
            let Some(link) = links.next() else {
                return false;
            };
            if link.sendable() != *replies || link.is_last() != *is_last {
                return false;
            }
        }
        true
    }

    // Returns whether the log has what it has at this end, and the service is sealed if the call of
    // this number failed. Without a failure, that is the number of all calls.
    fn has_kept(&self, call: usize, end: &End) -> bool {
        let has_failed = call < CALLS;
        let calls = call.saturating_add(usize::from(has_failed));
        self.log.bytes.as_slice() == end.log
            && self.log.kept == end.kept
            && self.log.calls == calls
            && self.service.is_sealed == has_failed
    }
}

// Returns whether the history ends so over a log that fails so, first at the call of this number.
fn ends(alloc: Global, call: usize, fails: Fails, end: &End) -> Result<bool, AllocError> {
    let mut house = new_house(alloc)?;
    house.log.fails = fails;
    let mut left = end.replies;
    let lost = house.live_on(alloc, &mut left)?;
    Ok(
        lost == Some(usize::from(call < CALLS))
            && house.has_left(&left, &end.last)
            && house.has_kept(call, end),
    )
}

#[test]
fn each_call_of_a_log_fails_in_turn(rt: HostRuntime) -> Result<(), Fail> {
    for (call, end) in ENDS.iter().enumerate() {
        assert!(rt;
            ends(rt.alloc(), call, Fails::At(call), end)?,
            "call {call}, once"
        );
        assert!(rt;
            ends(rt.alloc(), call, Fails::From(call), end)?,
            "from call {call} on"
        );
    }
    Ok(())
}
