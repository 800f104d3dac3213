//! Decisions of token requests.

ghost use Rattle.std.specs.Prelude.{◌≡◌, ◌<◌, ◌≤◌, IfOk};
ghost use Rattle.tk_message.specs.Decision.{Passes};
ghost use Rattle.tk_grant.specs.Granted as spec;
ghost use Rattle.tk_grant.specs.SoundJudged.{IsSoundJudged};

use crate::judged::{Grant, Judged, judge};
use std::alloc::{AllocError, Global};
use tk_fact::{AccessRefreshed, Body, CodeRedeemed, MintedToken, RefreshRotated, ReuseSeen};
use tk_handle::{Dot, Handle, Kind, Moment, TokenId};
use tk_ledger::Ledger;
use tk_message::{Decision, ErrorCode, JsonReply, Place, Reply, Request};

/// Decides a token request at a moment (RFC 6749, 4.1.3, 4.1.4, 5, 6 and 10.4; RFC 7636, 4.5 and
/// 4.6). Returns the reply, and the fact that the request makes, if any.
///
/// The fact, at the place's dot, is that a code was redeemed, a refresh token rotated, an access
/// token minted for a refresh token that is kept, or the reuse of a code or refresh token seen. The
/// access token's handle is made of the first three random words, the refresh token's of the last
/// three. Returns an error if memory runs out.
pub fn decide_token(
    alloc: Global,
    ledger: &Ledger,
    place: &Place,
    now: Moment,
    words: &[u64; 6],
    request: &Request,
) -> Result<Decision, AllocError>
    ensures value { IfOk result (λ d.
        d ≡ spec.grant_of ledger.now place.now now words.now request.now) }

    // The fact that the request makes, if any, passes its check.
    ensures passes { IfOk result (λ d. Passes d.made) }
{
    let judged = judge(alloc, ledger, now, request)?;
    decide_by(alloc, place, now, words, judged)
}

// Decides a request by its judgement.
fn decide_by(
    alloc: Global,
    place: &Place,
    now: Moment,
    words: &[u64; 6],
    judged: Judged,
) -> Result<Decision, AllocError>
    requires { IsSoundJudged now judged }
    ensures value { IfOk result (λ d. d ≡ spec.granted_by place.now now words.now judged) }
    ensures passes { IfOk result (λ d. Passes d.made) }
{
    match judged {
        Judged::Refused(why) => Decision::refuse(alloc, why.code()),
        Judged::Reused(token) => {
            let reply = JsonReply::Error(ErrorCode::InvalidGrant).reply(alloc)?;
            Ok(Decision {
                reply,
                made: Some(Body::ReuseSeen(ReuseSeen { token })),
            })
        }
        Judged::Redeems(grant) => decide_redeemed(alloc, place, now, words, grant),
        Judged::Rotates(generation, grant) => {
            decide_rotated(alloc, place, now, words, generation, grant)
        }
        Judged::Refreshes(grant) => decide_refreshed(alloc, place, now, words, grant),
    }
}

// Redeems a code.
fn decide_redeemed(
    alloc: Global,
    place: &Place,
    now: Moment,
    words: &[u64; 6],
    grant: Grant,
) -> Result<Decision, AllocError>
    requires { IsSoundJudged now (Judged.Redeems grant) }
    ensures value { IfOk result (λ d.
        d ≡ spec.granted_by place.now now words.now (Judged.Redeems grant)) }
    ensures passes { IfOk result (λ d. Passes d.made) }
{
    let code = grant.from;
    let Minted {
        reply,
        access,
        refresh,
    } = mint(alloc, place, now, words, grant)?;
    let fact = CodeRedeemed {
        code,
        start: now,
        access,
        refresh,
    };
    Ok(Decision {
        reply,
        made: Some(Body::CodeRedeemed(fact)),
    })
}

// Rotates a refresh token into the given generation.
fn decide_rotated(
    alloc: Global,
    place: &Place,
    now: Moment,
    words: &[u64; 6],
    generation: u16,
    grant: Grant,
) -> Result<Decision, AllocError>
    requires { IsSoundJudged now (Judged.Rotates generation grant) }
    ensures value { IfOk result (λ d.
        d ≡ spec.granted_by place.now now words.now (Judged.Rotates generation grant)) }
    ensures passes { IfOk result (λ d. Passes d.made) }
{
    let parent = grant.from;
    let Minted {
        reply,
        access,
        refresh,
    } = mint(alloc, place, now, words, grant)?;
    let fact = RefreshRotated {
        parent,
        generation,
        start: now,
        access,
        refresh,
    };
    Ok(Decision {
        reply,
        made: Some(Body::RefreshRotated(fact)),
    })
}

// Mints an access token for a refresh token that its client keeps.
fn decide_refreshed(
    alloc: Global,
    place: &Place,
    now: Moment,
    words: &[u64; 6],
    grant: Grant,
) -> Result<Decision, AllocError>
    requires { IsSoundJudged now (Judged.Refreshes grant) }
    ensures value { IfOk result (λ d.
        d ≡ spec.granted_by place.now now words.now (Judged.Refreshes grant)) }
    ensures passes { IfOk result (λ d. Passes d.made) }
{
    let access = access_handle(place.next_dot(), words);
    let lives = place.lives.bounded_by(grant.lives);
    let expiry = ends_at(now, lives.access, grant.family_end);
    let lifetime = expiry.seconds() - now.seconds();
    let reply = JsonReply::Refreshed(&access, lifetime, &grant.access).reply(alloc)?;
    let fact = AccessRefreshed {
        parent: grant.from,
        start: now,
        access: MintedToken {
            digest: access.digest(),
            expiry,
            scope: grant.access,
        },
    };
    Ok(Decision {
        reply,
        made: Some(Body::AccessRefreshed(fact)),
    })
}

// The tokens that a fact mints, and the reply with their handles.
#[derive(Drop)]
struct Minted {
    reply: Reply,
    access: MintedToken,
    refresh: MintedToken,
}

// Mints both tokens of a grant.
fn mint(
    alloc: Global,
    place: &Place,
    now: Moment,
    words: &[u64; 6],
    grant: Grant,
) -> Result<Minted, AllocError>
    requires { now < grant.family_end }
    ensures reply { IfOk result (λ m. m.reply ≡ spec.granted_reply place.now now words.now grant) }
    ensures access { IfOk result (λ m. (m.access ≡ spec.access_token place.now now words.now grant)
        × (now ≤ m.access.expiry)) }
    ensures refresh { IfOk result
        (λ m. (m.refresh ≡ spec.refresh_token place.now now words.now grant)
        × (now ≤ m.refresh.expiry)) }
{
    let next = place.next_dot();
    let (access, refresh) = (access_handle(next, words), refresh_handle(next, words));
    let lives = place.lives.bounded_by(grant.lives);
    let access_expiry = ends_at(now, lives.access, grant.family_end);
    let refresh_expiry = ends_at(now, lives.refresh, grant.family_end);
    let lifetime = access_expiry.seconds() - now.seconds();
    let reply = JsonReply::Tokens(&access, lifetime, &refresh, &grant.access).reply(alloc)?;
    Ok(Minted {
        reply,
        access: MintedToken {
            digest: access.digest(),
            expiry: access_expiry,
            scope: grant.access,
        },
        refresh: MintedToken {
            digest: refresh.digest(),
            expiry: refresh_expiry,
            scope: grant.refresh,
        },
    })
}

// Makes the access token's handle, of the first three random words.
pub(crate) fn access_handle(next: Dot, words: &[u64; 6]) -> Handle
    ensures { result ≡ spec.access_handle next words.now }
{
    let id = TokenId {
        dot: next,
        kind: Kind::Access,
    };
    Handle::mint(id, [words[0], words[1], words[2]])
}

// Makes the refresh token's handle, of the last three random words.
pub(crate) fn refresh_handle(next: Dot, words: &[u64; 6]) -> Handle
    ensures { result ≡ spec.refresh_handle next words.now }
{
    let id = TokenId {
        dot: next,
        kind: Kind::Refresh,
    };
    Handle::mint(id, [words[3], words[4], words[5]])
}

// Returns the expiry of a token that lives `life` seconds, at most until its family ends.
fn ends_at(now: Moment, life: u64, family_end: Moment) -> Moment
    requires { now < family_end }
    ensures value { result ≡ spec.ends_at now life family_end }
    ensures later { now ≤ result }
{
    let end = now.plus(life);
    if end.seconds() <= family_end.seconds() {
        end
    } else {
        family_end
    }
}
