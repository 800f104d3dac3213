//! The requests of one connection: `decide_all`.

ghost use Rattle.std.specs.Prelude.{◌≡◌, ◌++◌, ◌≤◌, ◌<◌, length, drop};
ghost use Rattle.tk_turn.specs.Requests.{AreRequests, Requests};

use crate::service::{Outcome, Service};
use tk_put::rest_of;

// How many requests of a connection one turn decides at most. With the number of connections that
// a turn has, this bounds the turn: a client that sends many requests at once keeps nobody out.
pub(crate) const MAX_REQUESTS: usize = 16;

// How far the requests of a connection went.
#[derive(Clone, Copy)]
pub(crate) struct Front {
    // How many bytes they took.
    pub(crate) taken: usize,
    // The outcome of the last decision.
    pub(crate) last: Outcome,
}

// Decides the requests at the front of the bytes, as many as are whole, at most `MAX_REQUESTS`.
pub(crate) fn decide_all<S: Service>(
    service: &mut S,
    input: &[u8],
    is_over: bool,
    replies: &mut Vec<u8>,
    records: &mut Vec<u8>,
) -> Front
    ensures within { result.taken ≤ length input.now }
    ensures decided { (requests : Requests)
        × AreRequests S.decides service.old input.now is_over requests service.new
        (drop result.taken input.now)
        × (replies.new.items ≡ replies.old.items ++ requests.replied)
        × (records.new.items ≡ records.old.items ++ requests.logged)
        × (result.last ≡ requests.last) }
{
    let mut at = 0;
    let mut count = 0;
    'requests: loop {
        let outcome = service.decide(rest_of(input, at), is_over, replies, records);
        at += outcome.taken();
        count += 1;
        let is_done = count >= MAX_REQUESTS;
        if is_done || !outcome.goes_on() {
            return Front {
                taken: at,
                last: outcome,
            };
        }
    }
}
