//! Refresh requests: a refresh token is rotated, unless its client keeps it (RFC 6749, 6; RFC 9700,
//! 2.2.2).

ghost use Rattle.std.specs.Prelude.{◌≡◌, IfOk};
ghost use Rattle.tk_grant.specs.Renewed as spec;
ghost use Rattle.tk_grant.specs.SoundGate.{IsSoundGate};
ghost use Rattle.tk_grant.specs.SoundJudged.{IsSoundJudged};

use crate::gate::Gate;
use crate::judged::Judged;
use crate::refusal::Refusal;
use crate::rotate::rotate;
use crate::scope_granted::grant_asked;
use std::alloc::{AllocError, Global};
use tk_fact::ClientLives;
use tk_handle::Moment;
use tk_ledger::ClientView;
use tk_message::Params;

// Returns whether the client keeps its refresh token.
fn is_keeping(client: &Option<ClientView<'_>>) -> bool
    ensures { result ≡ spec.is_keeping client.now }
{
    match client {
        Some(view) => view.client_kind.keeps_refresh(),
        None => false,
    }
}

// Returns the lives that the client was registered with, if it was with any.
pub(crate) fn registered_lives(client: &Option<ClientView<'_>>) -> Option<ClientLives>
    ensures { result ≡ spec.registered_lives client.now }
{
    match client {
        Some(view) => view.lives,
        None => None,
    }
}

// Judges a refresh request of the client, by the refresh token at the gate.
pub(crate) fn renew(
    alloc: Global,
    now: Moment,
    params: &Params,
    client: &Option<ClientView<'_>>,
    gate: Gate<'_>,
) -> Result<Judged, AllocError>
    requires { IsSoundGate now gate }
    ensures value { IfOk result (λ judged.
        judged ≡ spec.renewed_of client.now params.now gate.entry) }
    ensures sound { IfOk result (IsSoundJudged now) }
{
    let lives = registered_lives(client);
    if is_keeping(client) {
        refresh(alloc, now, params, lives, gate)
    } else {
        rotate(alloc, now, params, lives, gate)
    }
}

// Judges a request for an access token by the refresh token at the gate, which its client keeps.
fn refresh(
    alloc: Global,
    now: Moment,
    params: &Params,
    lives: Option<ClientLives>,
    gate: Gate<'_>,
) -> Result<Judged, AllocError>
    requires { IsSoundGate now gate }
    ensures value { IfOk result (λ judged.
        judged ≡ spec.refreshed_of lives params.now gate.entry) }
    ensures sound { IfOk result (IsSoundJudged now) }
{
    match gate {
        Gate::Shut(why) => Ok(Judged::Refused(why)),
        Gate::Reuse(id) => Ok(Judged::Reused(id)),
        Gate::Open(id, standing) => {
            match grant_asked(alloc, id.dot, lives, &standing, params)? {
                Some(grant) => Ok(Judged::Refreshes(grant)),
                None => Ok(Judged::Refused(Refusal::WrongScope)),
            }
        }
    }
}
