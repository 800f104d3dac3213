//! Decisions of introspection requests.

ghost use Rattle.std.specs.Prelude.{◌≡◌, IfOk};
ghost use Rattle.tk_message.specs.Decision.{answered};
ghost use Rattle.tk_query.specs.Introspection as spec;

use crate::caller::caller_here;
use crate::introspected::{Introspected, introspect};
use std::alloc::{AllocError, Global};
use tk_handle::Moment;
use tk_ledger::Ledger;
use tk_message::{Decision, JsonReply, RefreshSeen, Reply, Request};

/// Decides an introspection request at a moment, and returns the reply (RFC 7662, 2).
///
/// For an active token that the sender may see, the reply has the client, expiry, start, scope and
/// subject. For any other token, the reply is that it is not active. Who may see refresh tokens is
/// the region's choice. The reply depends on the facts, this choice, the moment and the request
/// alone, and no fact is made. Returns an error if memory runs out.
pub fn decide_introspect(
    alloc: Global,
    ledger: &Ledger,
    seen: RefreshSeen,
    now: Moment,
    request: &Request,
) -> Result<Decision, AllocError>
    ensures { IfOk result (λ d. d ≡ answered (spec.introspection_of ledger.now seen now
        request.now)) }
{
    let caller = caller_here(alloc, ledger, request)?;
    let known = introspect(ledger, seen, now, &request.params, caller);
    let reply = reply_to(alloc, known)?;
    Ok(Decision::answer(reply))
}

// Returns the reply by the outcome of introspection.
fn reply_to(alloc: Global, known: Introspected<'_>) -> Result<Reply, AllocError>
    ensures { IfOk result (λ reply. reply ≡ spec.told known.entry) }
{
    match known {
        Introspected::Refused(why) => JsonReply::Error(why.code()).reply(alloc),
        Introspected::Inactive => JsonReply::Inactive.reply(alloc),
        Introspected::Access(standing) => JsonReply::Access(standing).reply(alloc),
        Introspected::Refresh(standing) => JsonReply::Refresh(standing).reply(alloc),
    }
}
