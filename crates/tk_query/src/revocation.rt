//! Decisions of revocation requests.

ghost use Rattle.std.specs.Prelude.{◌≡◌, IfOk};
ghost use Rattle.tk_message.specs.Decision.{Passes};
ghost use Rattle.tk_query.specs.Revocation as spec;
ghost use Rattle.tk_query.specs.SoundRevocation.{IsSoundRevocation};

use crate::caller::caller_here;
use crate::revoked::{Revocation, revoke};
use std::alloc::{AllocError, Global};
use tk_fact::Body;
use tk_handle::Moment;
use tk_ledger::Ledger;
use tk_message::{Decision, Place, Request, StatusCode, empty_reply};

/// Decides a revocation request at a moment (RFC 7009, 2). Returns the reply, and the fact that the
/// client revoked the token, if there is something to revoke.
///
/// A client may revoke a token in advance, before the region has the fact that minted it, unless
/// the token would be of the place's own region, or the region's choice refuses the client. A
/// client that is refused may try again later. If nothing is left to revoke, the reply is the one
/// to a revocation, and no fact is made. Returns an error if memory runs out.
pub fn decide_revoke(
    alloc: Global,
    ledger: &Ledger,
    place: &Place,
    now: Moment,
    request: &Request,
) -> Result<Decision, AllocError>
    ensures value { IfOk result (λ d. d ≡ spec.revocation_of ledger.now place.now now
        request.now) }

    // The fact that the request makes, if any, passes its check.
    ensures passes { IfOk result (λ d. Passes d.made) }
{
    let caller = caller_here(alloc, ledger, request)?;
    let revocation = revoke(ledger, place, now, &request.params, caller);
    decide_by(alloc, revocation)
}

// Decides a request by the outcome of the revocation.
fn decide_by(alloc: Global, revocation: Revocation) -> Result<Decision, AllocError>
    requires { IsSoundRevocation revocation }
    ensures value { IfOk result (λ d. d ≡ spec.revoked_by revocation) }
    ensures passes { IfOk result (λ d. Passes d.made) }
{
    match revocation {
        Revocation::Refused(why) => Decision::refuse(alloc, why.code()),
        Revocation::Done(_) => Ok(Decision::answer(empty_reply(StatusCode::Ok))),
        Revocation::Later => Decision::postpone(alloc),
        Revocation::Revokes(fact) => Ok(Decision {
            reply: empty_reply(StatusCode::Ok),
            made: Some(Body::TokenRevoked(fact)),
        }),
    }
}
