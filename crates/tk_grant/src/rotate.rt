//! Rotating a refresh token (RFC 6749, 6).

ghost use Rattle.std.specs.Prelude.{◌≡◌, IfOk};
ghost use Rattle.tk_grant.specs.Rotated as spec;
ghost use Rattle.tk_grant.specs.SoundGate.{IsSoundGate};
ghost use Rattle.tk_grant.specs.SoundJudged.{IsSoundJudged};

use crate::gate::Gate;
use crate::judged::Judged;
use crate::refusal::Refusal;
use crate::scope_granted::grant_asked;
use std::alloc::{AllocError, Global};
use tk_fact::{ClientLives, MAX_GENERATIONS};
use tk_handle::Moment;
use tk_message::Params;

// Judges the rotation of the refresh token at the gate, by the parameters.
pub(crate) fn rotate(
    alloc: Global,
    now: Moment,
    params: &Params,
    lives: Option<ClientLives>,
    gate: Gate<'_>,
) -> Result<Judged, AllocError>
    requires { IsSoundGate now gate }
    ensures value { IfOk result (λ judged.
        judged ≡ spec.rotated_of lives params.now gate.entry) }
    ensures sound { IfOk result (IsSoundJudged now) }
{
    match gate {
        Gate::Shut(why) => Ok(Judged::Refused(why)),
        Gate::Reuse(id) => Ok(Judged::Reused(id)),
        Gate::Open(id, standing) => {
            if standing.generation >= MAX_GENERATIONS {
                return Ok(Judged::Refused(Refusal::LastGeneration));
            }
            match grant_asked(alloc, id.dot, lives, &standing, params)? {
                Some(grant) => Ok(Judged::Rotates(standing.generation + 1, grant)),
                None => Ok(Judged::Refused(Refusal::WrongScope)),
            }
        }
    }
}
