//! What a refresh token is good for: a grant for the scope that is asked for (RFC 6749, 6).

ghost use Rattle.std.specs.Prelude.{◌≡◌, IfOk, IfSome};
ghost use Rattle.tk_grant.specs.ScopeGranted as spec;

use crate::judged::Grant;
use std::alloc::{AllocError, Global};
use tk_fact::ClientLives;
use tk_handle::Dot;
use tk_ledger::Standing;
use tk_message::{Params, scope_asked};

// Returns the grant for the scope that is asked for; `None` if that isn't within the scope of the
// refresh token, whose standing this is and which the fact at the dot minted.
pub(crate) fn grant_asked(
    alloc: Global,
    from: Dot,
    lives: Option<ClientLives>,
    standing: &Standing<'_>,
    params: &Params,
) -> Result<Option<Grant>, AllocError>
    ensures value { IfOk result (λ grant.
        grant ≡ spec.grant_asked from lives standing.now params.now) }
    ensures ends { IfOk result (λ o. IfSome o (λ grant.
        grant.family_end ≡ standing.now.family_end)) }
{
    match scope_asked(alloc, standing.scope, params.value("scope"))? {
        Some(access) => {
            let refresh = standing.scope.copy(alloc)?;
            Ok(Some(Grant {
                from,
                family_end: standing.family_end,
                lives,
                access,
                refresh,
            }))
        }
        None => Ok(None),
    }
}
