//! What a subject has, in both ledgers: walks over its consents and logins, and what ends a login.

use super::alike::Compared;
use super::orders::Both;
use super::plain::{lower, state};
use super::same::{same_grants, same_logins};
use super::walks::{is_dead, is_withdrawn, issued_at};
use tk_fact::{Body, CodeRedeemed, Fact, Subject, TokenRevoked};
use tk_handle::{Dot, Kind, Moment, TokenId};
use tk_ledger::{ConsentView, LoginView};

// ---- the walks, over a list of facts

// Returns whether a dot is above another, or there is no other.
fn is_above(at: Dot, after: Option<Dot>) -> bool {
    match after {
        Some(after) => after < at,
        None => true,
    }
}

// Returns whether the fact is a consent that the subject gave.
fn is_given_by(fact: &Fact, subject: &Subject) -> bool {
    match &fact.body {
        Body::ConsentGiven(consent) => consent.subject.as_bytes() == subject.as_bytes(),
        _ => false,
    }
}

// Returns whether the fact issued a code to the subject, whose family is not over at the moment.
fn is_login_of(fact: &Fact, subject: &Subject, now: Moment) -> bool {
    match &fact.body {
        Body::CodeIssued(code) => {
            code.subject.as_bytes() == subject.as_bytes()
                && now.seconds() < code.family_end.seconds()
        }
        _ => false,
    }
}

// Returns the lowest dot above another, or of all, of a live consent of the subject.
fn next_consent(facts: &[Fact], subject: &Subject, after: Option<Dot>) -> Option<Dot> {
    let mut least: Option<Dot> = None;
    for fact in facts {
        let cursor = after;
        if is_given_by(fact, subject)
            && is_above(fact.dot, cursor)
            && !is_withdrawn(facts, fact.dot)
        {
            least = Some(lower(fact.dot, least));
        }
    }
    least
}

// Returns the lowest dot above another, or of all, of a login of the subject.
fn next_login(facts: &[Fact], subject: &Subject, now: Moment, after: Option<Dot>) -> Option<Dot> {
    let mut least: Option<Dot> = None;
    for fact in facts {
        let cursor = after;
        if is_login_of(fact, subject, now) && is_above(fact.dot, cursor) {
            least = Some(lower(fact.dot, least));
        }
    }
    least
}

// Returns the login that the code of the dot began, unless its family is over.
fn login(facts: &[Fact], now: Moment, at: Dot) -> Option<LoginView<'_>> {
    let code = issued_at(facts, at)?;
    if code.family_end.seconds() <= now.seconds() {
        return None;
    }
    let token = TokenId {
        dot: at,
        kind: Kind::Code,
    };
    Some(LoginView {
        client: code.client,
        scope: &code.scope,
        start: code.start,
        family_end: code.family_end,
        state: state(facts, now, &token, code.expiry, at, code),
    })
}

// Returns the fact that redeems the code of a dot, if this is such a fact.
fn redeems(fact: &Fact, at: Dot) -> Option<&CodeRedeemed> {
    match &fact.body {
        Body::CodeRedeemed(redeemed) if redeemed.code == at => Some(redeemed),
        _ => None,
    }
}

// Returns the revocation of the refresh token that the code of the dot was redeemed for.
fn ending(facts: &[Fact], at: Dot) -> Option<TokenRevoked> {
    let client = issued_at(facts, at)?.client;
    for fact in facts {
        if let Some(redeemed) = redeems(fact, at) {
            return Some(TokenRevoked {
                token: TokenId {
                    dot: fact.dot,
                    kind: Kind::Refresh,
                },
                digest: redeemed.refresh.digest,
                client,
                by: None,
            });
        }
    }
    None
}

// ---- both ledgers

// Returns whether the plain ledger has this consent.
fn has_consent(both: &Both, next: &(Dot, ConsentView<'_>)) -> bool {
    match both.plain.consent(next.0) {
        Some(view) => same_grants(&next.1, &view),
        None => false,
    }
}

fn is_next_consent_alike(both: &Both, subject: &Subject, after: Option<Dot>) -> bool {
    let cursor = after;
    let plain = next_consent(both.plain.facts(), subject, cursor);
    match both.ledger.next_consent(subject, after) {
        Some(next) => plain == Some(next.0) && has_consent(both, &next),
        None => plain.is_none(),
    }
}

// Returns whether the plain ledger has this login at the moment.
fn has_login(both: &Both, now: Moment, next: &(Dot, LoginView<'_>)) -> bool {
    match login(both.plain.facts(), now, next.0) {
        Some(view) => same_logins(&next.1, &view),
        None => false,
    }
}

fn is_next_login_alike(both: &Both, subject: &Subject, now: Moment, after: Option<Dot>) -> bool {
    let cursor = after;
    let plain = next_login(both.plain.facts(), subject, now, cursor);
    match both.ledger.next_login(subject, now, after) {
        Some(next) => plain == Some(next.0) && has_login(both, now, &next),
        None => plain.is_none(),
    }
}

fn is_login_alike(both: &Both, now: Moment, at: Dot) -> bool {
    match both.ledger.login(now, at) {
        Some(view) => has_login(both, now, &(at, view)),
        None => login(both.plain.facts(), now, at).is_none(),
    }
}

// Returns whether both are the same revocation, by nobody who was named, or none.
fn is_same_ending(left: &Option<TokenRevoked>, right: &Option<TokenRevoked>) -> bool {
    match (left, right) {
        (Some(left), Some(right)) => {
            left.token == right.token
                && left.digest == right.digest
                && left.client == right.client
                && left.by.is_none()
                && right.by.is_none()
        }
        (None, None) => true,
        _ => false,
    }
}

// Returns whether both ledgers end a login alike, unless its family is dead.
fn is_ending_alike(both: &Both, at: Dot) -> bool {
    let facts = both.plain.facts();
    is_dead(facts, at) || is_same_ending(&both.ledger.ending(at), &ending(facts, at))
}

/// Returns whether both ledgers have the same next consent and login of the subject above a dot, or
/// first of all, at each moment.
pub(super) fn are_walks_alike(both: &Both, after: Option<Dot>, compared: &Compared<'_>) -> bool {
    for now in compared.moments {
        let cursor = after;
        match Moment::new(*now) {
            Some(now) if is_next_login_alike(both, compared.subject, now, cursor) => {}
            _ => return false,
        }
    }
    is_next_consent_alike(both, compared.subject, after)
}

/// Returns whether both ledgers have the same login at a dot at each moment, and end it alike.
pub(super) fn are_logins_alike(both: &Both, at: Dot, compared: &Compared<'_>) -> bool {
    for now in compared.moments {
        match Moment::new(*now) {
            Some(now) if is_login_alike(both, now, at) => {}
            _ => return false,
        }
    }
    is_ending_alike(both, at)
}
