//! Facts that are changed after they were read, and the rule that each breaks then.
//!
//! No row shows these rules, because bytes of such a fact aren't read. The types of a fact's fields
//! keep the limits of subjects, URIs and challenges, so that `Limit` is never returned.

use super::facts::{Told, fact};
use super::refreshed::REFRESHED;
use super::{ADDED, ISSUED, REDEEMED, ROTATED, SEEN, TOKEN_REVOKED};
use std::alloc::Global;
use tk_fact::{
    Body, ClientAdded, ClientLives, CodeIssued, CodeRedeemed, Fact, FactError, RefreshRotated,
};
use tk_handle::{Kind, Moment};

// The change of a fact.
#[derive(Clone, Copy)]
enum Change {
    Generation(u16),
    AccessEnd(u64),
    RefreshEnd(u64),
    CodeEnd(u64),
    FamilyEnd(u64),
    // A change of the token that the fact names.
    TokenKind(Kind),
    // The lives of a client: of an access token, of a refresh token, of a family.
    Lives(u64, u64, u64),
}

fn change_code(code: &mut CodeIssued, change: Change) -> Option<()> {
    match change {
        Change::CodeEnd(end) => code.expiry = Moment::new(end)?,
        Change::FamilyEnd(end) => code.family_end = Moment::new(end)?,
        _ => return None,
    }
    Some(())
}

fn change_redemption(fact: &mut CodeRedeemed, change: Change) -> Option<()> {
    match change {
        Change::AccessEnd(end) => fact.access.expiry = Moment::new(end)?,
        Change::RefreshEnd(end) => fact.refresh.expiry = Moment::new(end)?,
        _ => return None,
    }
    Some(())
}

fn change_rotation(fact: &mut RefreshRotated, change: Change) -> Option<()> {
    match change {
        Change::Generation(generation) => fact.generation = generation,
        Change::AccessEnd(end) => fact.access.expiry = Moment::new(end)?,
        Change::RefreshEnd(end) => fact.refresh.expiry = Moment::new(end)?,
        _ => return None,
    }
    Some(())
}

fn change_client(client: &mut ClientAdded, change: Change) -> Option<()> {
    match change {
        Change::Lives(access, refresh, family) => {
            client.lives = Some(ClientLives {
                access,
                refresh,
                family,
            });
        }
        _ => return None,
    }
    Some(())
}

// Changes a body. `None` means that the fact has nothing of the kind.
fn change_body(body: &mut Body, change: Change) -> Option<()> {
    match (body, change) {
        (Body::ClientAdded(client), _) => change_client(client, change),
        (Body::CodeIssued(code), _) => change_code(code, change),
        (Body::CodeRedeemed(fact), _) => change_redemption(fact, change),
        (Body::RefreshRotated(fact), _) => change_rotation(fact, change),
        (Body::AccessRefreshed(fact), Change::AccessEnd(end)) => {
            fact.access.expiry = Moment::new(end)?;
            Some(())
        }
        (Body::TokenRevoked(fact), Change::TokenKind(kind)) => {
            fact.token.kind = kind;
            Some(())
        }
        (Body::ReuseSeen(fact), Change::TokenKind(kind)) => {
            fact.token.kind = kind;
            Some(())
        }
        _ => None,
    }
}

// Changes a fact, and returns whether it breaks a range then; `None` if another rule is broken.
fn breaks_range(fact: &mut Fact, change: Change) -> Option<bool> {
    change_body(&mut fact.body, change)?;
    match fact.check() {
        Ok(()) => Some(false),
        Err(FactError::Range) => Some(true),
        Err(FactError::Limit) => None,
    }
}

fn is_out_of_range(alloc: Global, told: &Told, change: Change) -> Option<bool> {
    match &mut fact(alloc, told) {
        Some(fact) => breaks_range(fact, change),
        None => None,
    }
}

// A code begins at 1,000, and tokens begin at 1,010.
#[rattlefmt::skip]
const CHANGES: &[(&str, Told, Change, bool)] = &[
    ("no generation", ROTATED, Change::Generation(0), true),
    ("the first generation", ROTATED, Change::Generation(1), false),
    ("the last generation", ROTATED, Change::Generation(10_000), false),
    ("one generation more", ROTATED, Change::Generation(10_001), true),
    ("a rotation's access token", ROTATED, Change::AccessEnd(1_009), true),
    ("an end at the start", ROTATED, Change::AccessEnd(1_010), false),
    ("a rotation's refresh token", ROTATED, Change::RefreshEnd(1_009), true),
    ("a redemption's access token", REDEEMED, Change::AccessEnd(1_009), true),
    ("a redemption's refresh token", REDEEMED, Change::RefreshEnd(1_009), true),
    ("an access token", REFRESHED, Change::AccessEnd(1_009), true),
    ("an access token at its start", REFRESHED, Change::AccessEnd(1_010), false),
    ("a code", ISSUED, Change::CodeEnd(999), true),
    ("a code at its start", ISSUED, Change::CodeEnd(1_000), false),
    ("a family", ISSUED, Change::FamilyEnd(999), true),
    ("a revoked code", TOKEN_REVOKED, Change::TokenKind(Kind::Code), true),
    ("a revoked access token", TOKEN_REVOKED, Change::TokenKind(Kind::Access), false),
    ("an access token used again", SEEN, Change::TokenKind(Kind::Access), true),
    ("a refresh token used again", SEEN, Change::TokenKind(Kind::Refresh), false),
    ("the least lives", ADDED, Change::Lives(1, 1, 1), false),
    ("the greatest lives", ADDED, Change::Lives(86_400, 31_536_000, 315_360_000), false),
    ("no access life", ADDED, Change::Lives(0, 1, 1), true),
    ("no refresh life", ADDED, Change::Lives(1, 0, 1), true),
    ("no family life", ADDED, Change::Lives(1, 1, 0), true),
    ("an access life of a day and a second", ADDED, Change::Lives(86_401, 1, 1), true),
    ("a refresh life of a year and a second", ADDED, Change::Lives(1, 31_536_001, 1), true),
    ("a family life of ten years and a second", ADDED, Change::Lives(1, 1, 315_360_001), true),
];

#[test]
fn a_fact_out_of_range_is_refused_for_that(rt: HostRuntime) {
    for (name, told, change, want) in CHANGES {
        let is_out = is_out_of_range(rt.alloc(), told, *change);
        assert!(rt; is_out == Some(*want), "{name}: {is_out:?}");
    }
}
