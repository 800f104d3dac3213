//! A ledger computed afresh for each answer: `PlainLedger`.
//!
//! The ledger keeps facts in a list, and the dots of skipped facts in another. The walks of `walks`
//! make each answer. Tests compare the ledger of tk_ledger with it.

use super::walks::{
    Sought, client_at, code_of_tokens, consent_at, consents, held, holds, is_dead, is_ended,
    is_live_client, is_live_consent, is_out, is_passing, is_withdrawn, issued_at, may_skip,
    uses_of,
};
use std::alloc::{AllocError, Global};
use tk_fact::{Body, CodeIssued, Fact, Subject};
use tk_handle::{Dot, Handle, Kind, Moment, RegionNumber, TokenId};
use tk_ledger::{ClientView, ConsentView, Standing, State, Status};
use tk_scope::Scope;
use tk_store::{AddError, Added};

/// A set of facts and skipped dots, walked for each answer.
#[derive(Drop)]
pub(super) struct PlainLedger {
    facts: Vec<Fact>,
    skipped: Vec<Dot>,
    // The horizon, in seconds.
    horizon: u64,
}

// Returns where the fact at the dot is in the list.
fn place_of(facts: &[Fact], dot: Dot) -> Option<usize> {
    for (place, fact) in facts.iter().enumerate() {
        if fact.dot == dot {
            return Some(place);
        }
    }
    None
}

/// Returns the lower of two dots, or the first if there is no other.
pub(super) fn lower(dot: Dot, other: Option<Dot>) -> Dot {
    match other {
        Some(other) if other < dot => other,
        _ => dot,
    }
}

// Returns whether the fact adds a client above a dot, or adds one if there is no dot.
fn adds_above(fact: &Fact, after: Option<Dot>) -> bool {
    let is_above = match after {
        Some(after) => after < fact.dot,
        None => true,
    };
    is_above && matches!(fact.body, Body::ClientAdded(_))
}

impl PlainLedger {
    pub(super) fn new(alloc: Global) -> PlainLedger {
        PlainLedger {
            facts: Vec::new(alloc),
            skipped: Vec::new(alloc),
            horizon: 0,
        }
    }

    // Returns whether the dot is skipped.
    pub(super) fn is_marked(&self, dot: Dot) -> bool {
        for mark in self.skipped.as_slice() {
            if *mark == dot {
                return true;
            }
        }
        false
    }

    // Returns all facts that are held.
    pub(super) fn facts(&self) -> &[Fact] {
        self.facts.as_slice()
    }

    // Returns the fact at the dot.
    pub(super) fn get(&self, dot: Dot) -> Option<&Fact> {
        held(self.facts.as_slice(), dot)
    }

    // Returns the number of facts that are held.
    pub(super) fn len(&self) -> u64 {
        self.facts.len() as u64
    }

    pub(super) fn horizon(&self) -> u64 {
        self.horizon
    }

    // Returns whether a dot is known: it has a fact or is skipped.
    fn is_known(&self, dot: Dot) -> bool {
        self.is_marked(dot) || self.get(dot).is_some()
    }

    // Returns the greatest serial of the region such that all from 1 to it are known, at most 100.
    pub(super) fn front(&self, region: RegionNumber) -> u64 {
        let mut front = 0_u64;
        for serial in 1..=100_u64 {
            match Dot::new(region, serial) {
                Some(dot) if self.is_known(dot) => front = serial,
                _ => return front,
            }
        }
        front
    }

    // Returns the greatest serial of the region that is known, at most 100; 0 if none is.
    pub(super) fn last_serial(&self, region: RegionNumber) -> u64 {
        let mut last = 0_u64;
        for serial in 1..=100_u64 {
            match Dot::new(region, serial) {
                Some(dot) if self.is_known(dot) => last = serial,
                _ => {}
            }
        }
        last
    }

    pub(super) fn add(&mut self, fact: Fact) -> Result<Added, AddError> {
        let has = match self.get(fact.dot) {
            Some(other) => Some(other.body.same(&fact.body)),
            None if self.is_marked(fact.dot) => Some(is_passing(&fact.body)),
            None => None,
        };
        match has {
            Some(has) => {
                drop(fact);
                if has {
                    Ok(Added::Held)
                } else {
                    Err(AddError::Conflict)
                }
            }
            None => match self.facts.push(fact) {
                Ok(()) => Ok(Added::New),
                Err(_) => Err(AddError::Memory),
            },
        }
    }

    // Removes the fact at the dot, if there is one.
    fn lose(&mut self, dot: Dot) -> Added {
        match place_of(self.facts.as_slice(), dot) {
            Some(place) if place < self.facts.len() => {
                drop(self.facts.remove(place));
                Added::Held
            }
            _ => Added::New,
        }
    }

    pub(super) fn skip(&mut self, dot: Dot) -> Result<Added, AddError> {
        if self.is_marked(dot) {
            return Ok(Added::Held);
        }
        match self.get(dot) {
            Some(fact) if !is_passing(&fact.body) => return Err(AddError::Conflict),
            _ => {}
        }
        if self.skipped.push(dot).is_err() {
            return Err(AddError::Memory);
        }
        Ok(self.lose(dot))
    }

    // Returns the dots of all facts that may be skipped, by the facts held now.
    fn dots_over(&self, alloc: Global, horizon: u64) -> Result<Vec<Dot>, AllocError> {
        let facts = self.facts.as_slice();
        let mut dots = Vec::new(alloc);
        for fact in facts {
            if may_skip(facts, fact, horizon) && dots.push(fact.dot).is_err() {
                return Err(AllocError);
            }
        }
        Ok(dots)
    }

    // Raises the horizon, and skips the facts of families that are over then. Returns their number.
    pub(super) fn prune(&mut self, alloc: Global, moment: Moment) -> Result<u64, AllocError> {
        let horizon = self.horizon.max(moment.seconds());
        let dots = self.dots_over(alloc, horizon)?;
        for dot in dots.as_slice() {
            if self.skip(*dot) != Ok(Added::Held) {
                return Err(AllocError);
            }
        }
        self.horizon = horizon;
        Ok(dots.len() as u64)
    }

    pub(super) fn client(&self, dot: Dot) -> Option<ClientView<'_>> {
        let client = client_at(self.facts.as_slice(), dot)?;
        Some(ClientView {
            client_kind: &client.client_kind,
            scope: &client.scope,
            redirects: &client.redirects,
            lives: client.lives,
            live: is_live_client(self.facts.as_slice(), dot),
        })
    }

    // Returns the lowest dot above another, or of all, at which a client was added.
    pub(super) fn next_client(&self, after: Option<Dot>) -> Option<Dot> {
        let mut least: Option<Dot> = None;
        for fact in self.facts.as_slice() {
            let cursor = after;
            if adds_above(fact, cursor) {
                least = Some(lower(fact.dot, least));
            }
        }
        least
    }

    pub(super) fn consent(&self, dot: Dot) -> Option<ConsentView<'_>> {
        let consent = consent_at(self.facts.as_slice(), dot)?;
        Some(ConsentView {
            client: consent.client,
            subject: &consent.subject,
            scope: &consent.scope,
            live: !is_withdrawn(self.facts.as_slice(), dot),
        })
    }

    // Returns the lowest dot of a live consent of the client and subject for the scope.
    pub(super) fn consent_for(&self, client: Dot, subject: &Subject, scope: &Scope) -> Option<Dot> {
        let facts = self.facts.as_slice();
        let mut least: Option<Dot> = None;
        for fact in facts {
            if consents(facts, fact, client, subject, scope) {
                least = Some(lower(fact.dot, least));
            }
        }
        least
    }

    pub(super) fn revoked(&self, token: &TokenId, digest: &[u8; 32], client: Dot) -> bool {
        holds(
            self.facts.as_slice(),
            &Sought::Revocation(*token, *digest, client),
        )
    }

    // Returns whether the subject signed out at the moment or later.
    pub(super) fn is_signed_out(&self, subject: &Subject, moment: Moment) -> bool {
        is_out(self.facts.as_slice(), subject, moment)
    }

    // Returns the status of a handle: the first case that holds.
    pub(super) fn status(&self, now: Moment, handle: &Handle) -> Status<'_> {
        let facts = self.facts.as_slice();
        if self.is_marked(handle.id.dot) {
            return Status::Wrong;
        }
        let Some(fact) = held(facts, handle.id.dot) else {
            return Status::Unseen;
        };
        let Some(minted) = fact.minted(handle.id.kind) else {
            return Status::Wrong;
        };
        if *minted.digest != handle.digest() {
            return Status::Wrong;
        }
        let Some(code) = code_of_tokens(facts, fact.dot) else {
            return Status::Broken(minted.expiry);
        };
        let Some(issued) = issued_at(facts, code) else {
            return Status::Broken(minted.expiry);
        };
        Status::Known(Standing {
            client: issued.client,
            subject: &issued.subject,
            code,
            issued,
            scope: minted.scope,
            start: minted.start,
            expiry: minted.expiry,
            family_end: issued.family_end,
            generation: generation(&fact.body),
            state: state(facts, now, &handle.id, minted.expiry, code, issued),
        })
    }
}

// Returns how many rotations lie between the code and the tokens of the fact.
fn generation(body: &Body) -> u16 {
    match body {
        Body::RefreshRotated(fact) => fact.generation,
        _ => 0,
    }
}

/// Returns the first state that holds.
pub(super) fn state(
    facts: &[Fact],
    now: Moment,
    token: &TokenId,
    expiry: Moment,
    code: Dot,
    issued: &CodeIssued,
) -> State {
    let is_access = token.kind == Kind::Access;
    if is_dead(facts, code) {
        State::Dead
    } else if !(is_live_client(facts, issued.client) && is_live_consent(facts, issued)) {
        State::Withdrawn
    } else if issued.family_end.seconds() <= now.seconds() {
        State::Over
    } else if !is_access && uses_of(facts, token) > 0 {
        State::Used
    } else if expiry.seconds() <= now.seconds() {
        State::Past
    } else if is_access && is_ended(facts, token) == Some(true) {
        State::Ended
    } else {
        State::Live
    }
}
