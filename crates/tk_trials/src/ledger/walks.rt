//! The definitions of docs/DEFINITIONS.md, written once more as walks over a list of facts.
//!
//! No function here has a contract, and no walk takes memory.

use tk_fact::{Body, ClientAdded, CodeIssued, ConsentGiven, Fact, Subject};
use tk_handle::{Dot, Kind, Moment, TokenId};
use tk_scope::Scope;

// Returns the fact at the dot.
pub(super) fn held(facts: &[Fact], dot: Dot) -> Option<&Fact> {
    for fact in facts {
        if fact.dot == dot {
            return Some(fact);
        }
    }
    None
}

// ---- the walk

// What a walk looks for in each fact.
#[derive(Clone, Copy)]
pub(super) enum Sought {
    // A retirement of the client.
    Retirement(Dot),
    // A withdrawal of the consent.
    Withdrawal(Dot),
    // A use of the token.
    Reuse(TokenId),
    // A revocation of the token of this digest, by the client.
    Revocation(TokenId, [u8; 32], Dot),
}

// Returns whether a fact is what the walk looks for.
pub(super) fn holds(facts: &[Fact], sought: &Sought) -> bool {
    for fact in facts {
        if is_sought(&fact.body, sought) {
            return true;
        }
    }
    false
}

fn is_sought(body: &Body, sought: &Sought) -> bool {
    match sought {
        Sought::Retirement(client) => retires(body, *client),
        Sought::Withdrawal(consent) => withdraws(body, *consent),
        Sought::Reuse(token) => reuses(body, *token),
        Sought::Revocation(token, digest, client) => revokes(body, *token, digest, *client),
    }
}

fn retires(body: &Body, client: Dot) -> bool {
    match body {
        Body::ClientRetired(fact) => fact.client == client,
        _ => false,
    }
}

fn withdraws(body: &Body, consent: Dot) -> bool {
    match body {
        Body::ConsentWithdrawn(fact) => fact.consent == consent,
        _ => false,
    }
}

fn reuses(body: &Body, token: TokenId) -> bool {
    match body {
        Body::ReuseSeen(fact) => fact.token == token,
        _ => false,
    }
}

fn revokes(body: &Body, token: TokenId, digest: &[u8; 32], client: Dot) -> bool {
    match body {
        Body::TokenRevoked(fact) => {
            fact.token == token && fact.digest == *digest && fact.client == client
        }
        _ => false,
    }
}

// Returns whether the subject signed out at the moment or later.
pub(super) fn is_out(facts: &[Fact], subject: &Subject, moment: Moment) -> bool {
    for fact in facts {
        if signs_out(&fact.body, subject, moment) {
            return true;
        }
    }
    false
}

fn signs_out(body: &Body, subject: &Subject, moment: Moment) -> bool {
    match body {
        Body::SubjectOut(fact) => {
            fact.subject.as_bytes() == subject.as_bytes()
                && moment.seconds() <= fact.moment.seconds()
        }
        _ => false,
    }
}

// ---- clients and consents

pub(super) fn client_at(facts: &[Fact], at: Dot) -> Option<&ClientAdded> {
    match &held(facts, at)?.body {
        Body::ClientAdded(client) => Some(client),
        _ => None,
    }
}

// Returns whether a client was added at the dot and no retirement of it is held.
pub(super) fn is_live_client(facts: &[Fact], client: Dot) -> bool {
    client_at(facts, client).is_some() && !holds(facts, &Sought::Retirement(client))
}

pub(super) fn consent_at(facts: &[Fact], at: Dot) -> Option<&ConsentGiven> {
    match &held(facts, at)?.body {
        Body::ConsentGiven(consent) => Some(consent),
        _ => None,
    }
}

pub(super) fn is_withdrawn(facts: &[Fact], consent: Dot) -> bool {
    holds(facts, &Sought::Withdrawal(consent))
}

fn gives(consent: &ConsentGiven, client: Dot, subject: &Subject) -> bool {
    consent.client == client && consent.subject.as_bytes() == subject.as_bytes()
}

// Returns whether the consent of a code is live.
pub(super) fn is_live_consent(facts: &[Fact], code: &CodeIssued) -> bool {
    match consent_at(facts, code.consent) {
        Some(consent) => {
            gives(consent, code.client, &code.subject) && !is_withdrawn(facts, code.consent)
        }
        None => false,
    }
}

// Returns whether the fact is a live consent of the client and subject for the scope.
pub(super) fn consents(
    facts: &[Fact],
    fact: &Fact,
    client: Dot,
    subject: &Subject,
    scope: &Scope,
) -> bool {
    match &fact.body {
        Body::ConsentGiven(consent) => {
            gives(consent, client, subject)
                && scope.within(&consent.scope)
                && !is_withdrawn(facts, fact.dot)
        }
        _ => false,
    }
}

// ---- families

// Returns whether the fact at the dot fits as the parent of a rotation of this generation.
fn is_parent(facts: &[Fact], at: Dot, generation: u16) -> bool {
    match held(facts, at) {
        Some(fact) => match &fact.body {
            Body::CodeRedeemed(_) => generation == 1,
            Body::RefreshRotated(before) => u32::from(before.generation) + 1
                == u32::from(generation),
            _ => false,
        },
        None => false,
    }
}

pub(super) fn issued_at(facts: &[Fact], at: Dot) -> Option<&CodeIssued> {
    match &held(facts, at)?.body {
        Body::CodeIssued(code) => Some(code),
        _ => None,
    }
}

// Returns the parent of this fact in its family.
fn parent(facts: &[Fact], body: &Body) -> Option<Dot> {
    match body {
        Body::CodeRedeemed(fact) if issued_at(facts, fact.code).is_some() => Some(fact.code),
        Body::RefreshRotated(fact) if is_parent(facts, fact.parent, fact.generation) => {
            Some(fact.parent)
        }
        _ => None,
    }
}

// Returns the code that the tokens of the fact at the dot are under. At most 10,001 parents lead to
// it.
pub(super) fn code_above(facts: &[Fact], dot: Dot) -> Option<Dot> {
    let mut at = dot;
    for _ in 0..10_002 {
        if issued_at(facts, at).is_some() {
            return Some(at);
        }
        at = parent(facts, &held(facts, at)?.body)?;
    }
    None
}

// Returns the code that the tokens minted at the dot are under: an access token that was refreshed
// is under the code of its refresh token.
pub(super) fn code_of_tokens(facts: &[Fact], dot: Dot) -> Option<Dot> {
    match &held(facts, dot)?.body {
        Body::AccessRefreshed(fact) => code_above(facts, fact.parent),
        _ => code_above(facts, dot),
    }
}

fn uses(body: &Body, token: &TokenId) -> bool {
    match body {
        Body::CodeRedeemed(fact) => token.dot == fact.code && token.kind == Kind::Code,
        Body::RefreshRotated(fact) => token.dot == fact.parent && token.kind == Kind::Refresh,
        _ => false,
    }
}

// Returns how many facts use the token.
pub(super) fn uses_of(facts: &[Fact], token: &TokenId) -> u32 {
    let mut count = 0_u32;
    for fact in facts {
        if uses(&fact.body, token) {
            count = count.saturating_add(1);
        }
    }
    count
}

// Returns whether the client of the token's code revoked the token.
pub(super) fn is_ended(facts: &[Fact], token: &TokenId) -> Option<bool> {
    let fact = held(facts, token.dot)?;
    let code = issued_at(facts, code_of_tokens(facts, token.dot)?)?;
    match fact.minted(token.kind) {
        Some(minted) => Some(holds(
            facts,
            &Sought::Revocation(*token, *minted.digest, code.client),
        )),
        None => None,
    }
}

// Returns the token of a fact whose marks and uses count: its code, or otherwise its refresh token.
fn grant_of(fact: &Fact) -> Option<TokenId> {
    let kind = match &fact.body {
        Body::CodeIssued(_) => Kind::Code,
        Body::CodeRedeemed(_) | Body::RefreshRotated(_) => Kind::Refresh,
        _ => return None,
    };
    Some(TokenId {
        dot: fact.dot,
        kind,
    })
}

// Returns whether the grant was stopped: a refresh token was revoked, or the subject of a code
// signed out.
fn is_stopped(facts: &[Fact], token: &TokenId) -> bool {
    match issued_at(facts, token.dot) {
        Some(code) => is_out(facts, &code.subject, code.start),
        None => is_ended(facts, token) == Some(true),
    }
}

// Returns whether the fact's grant was reused, was stopped, or was used by two facts.
fn is_bad(facts: &[Fact], fact: &Fact) -> bool {
    match grant_of(fact) {
        Some(token) => {
            holds(facts, &Sought::Reuse(token))
                || is_stopped(facts, &token)
                || uses_of(facts, &token) > 1
        }
        None => false,
    }
}

// Returns whether the family of the code is dead.
pub(super) fn is_dead(facts: &[Fact], code: Dot) -> bool {
    for fact in facts {
        if is_bad(facts, fact) && code_above(facts, fact.dot) == Some(code) {
            return true;
        }
    }
    false
}

// ---- facts that may be skipped

// Returns whether a fact of this body may ever be skipped.
pub(super) fn is_passing(body: &Body) -> bool {
    matches!(
        body,
        Body::CodeIssued(_)
            | Body::CodeRedeemed(_)
            | Body::RefreshRotated(_)
            | Body::TokenRevoked(_)
            | Body::ReuseSeen(_)
            | Body::AccessRefreshed(_)
    )
}

// Returns the token that a fact is kept for: its own grant, the token that it revokes, the one
// whose reuse it saw, or the refresh token for which it mints an access token.
fn kept_for(fact: &Fact) -> Option<TokenId> {
    match &fact.body {
        Body::TokenRevoked(revoked) => Some(revoked.token),
        Body::ReuseSeen(seen) => Some(seen.token),
        Body::AccessRefreshed(refreshed) => Some(TokenId {
            dot: refreshed.parent,
            kind: Kind::Refresh,
        }),
        _ => grant_of(fact),
    }
}

// Returns the end of the family that the tokens minted at a dot are in, if a code is above them.
fn family_end(facts: &[Fact], dot: Dot) -> Option<u64> {
    let code = issued_at(facts, code_of_tokens(facts, dot)?)?;
    Some(code.family_end.seconds())
}

// Returns whether the fact mints a token.
fn mints(fact: &Fact) -> bool {
    grant_of(fact).is_some() || matches!(fact.body, Body::AccessRefreshed(_))
}

// Returns whether the token can't come any more, or is of a family that is over at the horizon.
fn is_gone(facts: &[Fact], token: &TokenId, horizon: u64) -> bool {
    match held(facts, token.dot) {
        Some(fact) if !mints(fact) => true,
        _ => match family_end(facts, token.dot) {
            Some(end) => end <= horizon,
            None => false,
        },
    }
}

// Returns whether the fact is kept for a token that is gone at the horizon.
pub(super) fn may_skip(facts: &[Fact], fact: &Fact, horizon: u64) -> bool {
    match kept_for(fact) {
        Some(token) => is_gone(facts, &token, horizon),
        None => false,
    }
}
