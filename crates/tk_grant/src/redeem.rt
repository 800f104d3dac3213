//! Redeeming a code (RFC 6749, 4.1.3).

ghost use Rattle.std.specs.Prelude.{◌≡◌, ◌<◌, IfOk};
ghost use Rattle.std.specs.Option.{option_copied};
ghost use Rattle.tk_grant.specs.Redeemed as spec;
ghost use Rattle.tk_grant.specs.SoundGate.{IsSoundGate};
ghost use Rattle.tk_grant.specs.SoundJudged.{IsSoundJudged};

use crate::gate::Gate;
use crate::judged::{Grant, Judged};
use crate::refusal::Refusal;
use std::alloc::{AllocError, Global};
use tk_fact::ClientLives;
use tk_handle::Moment;
use tk_ledger::Standing;
use tk_match::{Challenge, Uri};
use tk_message::Params;

// Judges the redemption of the code at the gate, by the parameters.
pub(crate) fn redeem(
    alloc: Global,
    now: Moment,
    params: &Params,
    lives: Option<ClientLives>,
    gate: Gate<'_>,
) -> Result<Judged, AllocError>
    requires { IsSoundGate now gate }
    ensures value { IfOk result (λ judged.
        judged ≡ spec.redeemed_of lives params.now gate.entry) }
    ensures sound { IfOk result (IsSoundJudged now) }
{
    match gate {
        Gate::Shut(why) => Ok(Judged::Refused(why)),
        Gate::Reuse(id) => Ok(Judged::Reused(id)),
        Gate::Open(_, standing) => redeem_by(alloc, now, params, lives, &standing),
    }
}

// Judges the redemption of a code by its standing.
fn redeem_by(
    alloc: Global,
    now: Moment,
    params: &Params,
    lives: Option<ClientLives>,
    standing: &Standing<'_>,
) -> Result<Judged, AllocError>
    requires { now < standing.now.family_end }
    ensures value { IfOk result (λ judged.
        judged ≡ spec.redeemed_by lives params.now standing.now) }
    ensures sound { IfOk result (IsSoundJudged now) }
{
    let code = standing.issued;
    if !names_uri(code.sent, &code.uri, params.value("redirect_uri")) {
        return Ok(Judged::Refused(Refusal::WrongRedirect));
    }
    if !meets_challenge(&code.challenge, params.value("code_verifier")) {
        return Ok(Judged::Refused(Refusal::WrongVerifier));
    }
    let access = standing.scope.copy(alloc)?;
    let refresh = standing.scope.copy(alloc)?;
    Ok(Judged::Redeems(Grant {
        from: standing.code,
        family_end: standing.family_end,
        lives,
        access,
        refresh,
    }))
}

// Returns whether the request repeats the redirection URI of the code's request, if that named one.
fn names_uri(sent: bool, uri: &Uri, named: Option<&str>) -> bool
    ensures { result ≡ spec.names_uri sent uri.now (option_copied named.entry) }
{
    match named {
        Some(named) => named == uri.as_str(),
        None => !sent,
    }
}

// Returns whether the verifier meets the challenge, or there is neither.
fn meets_challenge(challenge: &Option<Challenge>, verifier: Option<&str>) -> bool
    ensures { result ≡ spec.meets_challenge challenge.now (option_copied verifier.entry) }
{
    match (challenge, verifier) {
        (None, None) => true,
        (None, Some(_)) => false,
        (Some(_), None) => false,
        (Some(challenge), Some(verifier)) => challenge.meets(verifier.as_bytes()),
    }
}
