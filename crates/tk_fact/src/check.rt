//! The rules that a fact must keep.

ghost use Rattle.std.specs.Prelude.{◌≡◌, ◌&&◌, OnOk, IfErr, IsTrue, None, Some, true};
ghost use Rattle.std.specs.List.{list_all};
ghost use Rattle.tk_match.specs.Redirects.{is_uri};
ghost use Rattle.tk_fact.specs.Check.{first_broken, refusal_of, ends_after, is_challenge};
ghost use Rattle.tk_fact.specs.Check.{are_lives, is_by, is_revocable, is_turn, is_used_once};
ghost use Rattle.tk_fact.specs.Subject.{is_subject};

use crate::body::Body;
use crate::by::{By, known_by};
use crate::client_lives::ClientLives;
use crate::code_issued::CodeIssued;
use crate::minted_token::MintedToken;
use crate::subject::Subject;
use tk_handle::{Kind, Moment};
use tk_match::{Challenge, Redirects};

/// The first rule that a fact breaks, in the order of the variants.
#[derive(Clone, Copy)]
pub enum FactError {
    /// A subject, an operator, a redirection URI or a challenge is outside its length or its
    /// alphabet.
    ///
    /// No call returns it: `Subject`, `Uri`, `Redirects` and `Challenge` keep these limits, in
    /// facts that are built and in facts that are read. It names the rule in the definition.
    Limit,
    /// A field is outside its range.
    ///
    /// - A life of a client is 0 seconds, or longer than any such life.
    /// - An expiry, or the end of a family, is before the start.
    /// - A generation is not 1 to 10,000.
    /// - A turn of a secret is not 1 to 1,000,000.
    /// - A revoked token is a code, or a token used again is an access token.
    Range,
}

/// The greatest number of generations of a family, the last of which isn't rotated (own).
pub const MAX_GENERATIONS: u16 = 10_000;

/// The greatest turn of a client's secret: how often it can be changed (own).
pub const MAX_TURNS: u64 = 1_000_000;

// Returns the first rule that a body breaks, if any.
pub(crate) fn check_body(body: &Body) -> Result<(), FactError>
    ensures ok { OnOk result (refusal_of body.now ≡ None) }
    ensures err { IfErr result (λ e. refusal_of body.now ≡ Some e) }
{
    match body {
        Body::ClientAdded(fact) => {
            known_by(&fact.by);
            known_uris(&fact.redirects);
            in_range(are_lives(&fact.lives))
        }
        Body::ConsentGiven(fact) => names_in_limits(&fact.by, &fact.subject),
        Body::CodeIssued(fact) => {
            known_limits(fact);
            let start = fact.start.seconds();
            in_range(start <= fact.expiry.seconds() && start <= fact.family_end.seconds())
        }
        Body::CodeRedeemed(fact) => in_range(end_after(fact.start, &fact.access, &fact.refresh)),
        Body::RefreshRotated(fact) => in_range(
            (1..=MAX_GENERATIONS).contains(&fact.generation)
                && end_after(fact.start, &fact.access, &fact.refresh),
        ),
        Body::AccessRefreshed(fact) => {
            in_range(fact.start.seconds() <= fact.access.expiry.seconds())
        }
        Body::TokenRevoked(fact) => {
            known_by(&fact.by);
            in_range(is_revocable(fact.token.kind))
        }
        Body::ReuseSeen(fact) => in_range(is_used_once(fact.token.kind)),
        Body::SubjectOut(fact) => names_in_limits(&fact.by, &fact.subject),
        Body::SecretSet(fact) => {
            known_by(&fact.by);
            in_range(is_turn(fact.turn))
        }
        Body::ClientRetired(fact) => operator_in_limits(&fact.by),
        Body::ConsentWithdrawn(fact) => operator_in_limits(&fact.by),
    }
}

/// The longest life of an access token in seconds: a day (own).
pub const MAX_ACCESS_LIFE: u64 = 86_400;

/// The longest life of a refresh token in seconds: a year (own).
pub const MAX_REFRESH_LIFE: u64 = 31_536_000;

/// The longest life of a family in seconds: ten years (own).
pub const MAX_FAMILY_LIFE: u64 = 315_360_000;

// Returns no refusal: an operator, if there is one, is always within its limits.
fn operator_in_limits(by: &Option<By>) -> Result<(), FactError>
    ensures ok { OnOk result (first_broken (is_by by.now) true ≡ None) }
    ensures err { IfErr result (λ e. first_broken (is_by by.now) true ≡ Some e) }
{
    known_by(by);
    Ok(())
}

// Returns no refusal: an operator, if there is one, and a subject are always within their limits.
fn names_in_limits(by: &Option<By>, subject: &Subject) -> Result<(), FactError>
    ensures ok { OnOk result
        (first_broken (is_by by.now && is_subject subject.now) true ≡ None) }
    ensures err { IfErr result
        (λ e. first_broken (is_by by.now && is_subject subject.now) true ≡ Some e) }
{
    known_by(by);
    let _name = subject.as_str();
    Ok(())
}

// Returns whether the ranges are kept. The limits always are.
fn in_range(ranges: bool) -> Result<(), FactError>
    ensures ok { OnOk result (first_broken true ranges ≡ None) }
    ensures err { IfErr result (λ e. first_broken true ranges ≡ Some e) }
{
    if ranges {
        Ok(())
    } else {
        Err(FactError::Range)
    }
}

// Returns whether the lives of a client, if it has any, are in range.
fn are_lives(lives: &Option<ClientLives>) -> bool
    ensures { result ≡ are_lives lives.now }
{
    match lives {
        None => true,
        Some(lives) => {
            (1..=MAX_ACCESS_LIFE).contains(&lives.access)
                && (1..=MAX_REFRESH_LIFE).contains(&lives.refresh)
                && (1..=MAX_FAMILY_LIFE).contains(&lives.family)
        }
    }
}

// Returns whether neither token expires before the start.
fn end_after(start: Moment, access: &MintedToken, refresh: &MintedToken) -> bool
    ensures { result ≡ ends_after start access.now refresh.now }
{
    start.seconds() <= access.expiry.seconds() && start.seconds() <= refresh.expiry.seconds()
}

// Gives a proof the fact that a list of redirection URIs keeps the limits.
#[tactic(auto, using(crate::proofs::CheckLaws::kept_uris))]
fn known_uris(redirects: &Redirects)
    ensures { IsTrue (list_all is_uri redirects.now) }
{
    redirects.known();
}

// Gives a proof the fact that the fields of an issued code keep the limits.
fn known_limits(code: &CodeIssued)
    ensures { IsTrue (is_subject code.now.subject && is_uri code.now.uri
        && is_challenge code.now.challenge) }
{
    let _name = code.subject.as_str();
    let _text = code.uri.as_str();
    known_challenge_text(&code.challenge);
}

// Gives a proof the fact that an optional challenge keeps the limits.
fn known_challenge_text(challenge: &Option<Challenge>)
    ensures { IsTrue (is_challenge challenge.now) }
{
    match challenge {
        None => {}
        Some(challenge) => {
            let _text = challenge.text();
        }
    }
}

// Returns whether a turn of a secret is in range.
fn is_turn(turn: u64) -> bool
    ensures { result ≡ is_turn turn }
{
    (1..=MAX_TURNS).contains(&turn)
}

fn is_revocable(kind: Kind) -> bool
    ensures { result ≡ is_revocable kind }
{
    match kind {
        Kind::Code => false,
        Kind::Access => true,
        Kind::Refresh => true,
    }
}

fn is_used_once(kind: Kind) -> bool
    ensures { result ≡ is_used_once kind }
{
    match kind {
        Kind::Code => true,
        Kind::Access => false,
        Kind::Refresh => true,
    }
}
