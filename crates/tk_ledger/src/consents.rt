//! Consents: the consent that was given at a dot, whether it was withdrawn, and the first for a
//! scope.

ghost use Rattle.std.specs.Prelude.{◌≡◌, ◌&&◌, None};
ghost use Rattle.std.specs.BTreeSet.{IsOrdered};
ghost use Rattle.std.specs.FinMap as map;
ghost use Rattle.std.specs.List.{find};
ghost use Rattle.std.specs.Option.{option_copied};
ghost use Rattle.sha2.specs.Sha256.{sha256};
ghost use Rattle.tk_store.specs.StoreFields.{held_facts};
ghost use Rattle.tk_ledger.specs.Bodies.{is_same_dot};
ghost use Rattle.tk_ledger.specs.Clients as spec;
ghost use Rattle.tk_ledger.specs.Index.{consent_cmp, consents_above};

use crate::change::subject_digest;
use crate::compare::{same_bytes, same_dots};
use crate::consent_keys::{self, ConsentKey, consents_from, last_consent};
use crate::ledger::Ledger;
use std::collections::BTreeSet;
use std::ops::Bound;
use tk_fact::{Body, ConsentGiven, Subject};
use tk_handle::Dot;
use tk_scope::Scope;

// Returns the consent that the body gives, if the body gives one.
pub(crate) fn given_in(body: &Body) -> Option<&ConsentGiven>
    ensures { option_copied result ≡ spec.given_in body.now }
{
    match body {
        Body::ConsentGiven(consent) => Some(consent),
        _ => None,
    }
}

// Returns whether the subject gave the consent to the client.
pub(crate) fn gives(consent: Option<&ConsentGiven>, client: Dot, subject: &Subject) -> bool
    ensures { result ≡ spec.gives client subject.now (option_copied consent.entry) }
{
    match consent {
        Some(consent) => {
            same_dots(consent.client, client)
                && same_bytes(consent.subject.as_bytes(), subject.as_bytes())
        }
        None => false,
    }
}

// Returns whether the subject gave the consent to the client, for the scope or a greater one.
fn grants(consent: Option<&ConsentGiven>, client: Dot, subject: &Subject, scope: &Scope) -> bool
    ensures { result ≡ spec.grants client subject.now scope.now (option_copied consent.entry) }
{
    match consent {
        Some(given) => gives(Some(given), client, subject) && scope.within(&given.scope),
        None => false,
    }
}

impl Ledger {
    // Returns the consent that was given at the dot.
    pub(crate) fn given_at(&self, at: Dot) -> Option<&ConsentGiven>
        ensures { option_copied result ≡ spec.consent_at (held_facts self.now) at }
    {
        match self.store.get(at) {
            Some(fact) => given_in(&fact.body),
            None => None,
        }
    }

    // Returns whether a withdrawal of the consent is held, by one look-up.
    pub(crate) fn has_withdrawn(&self, consent: Dot) -> bool
        ensures { result ≡ spec.is_withdrawn (held_facts self.now) consent }
    {
        consent_keys::is_withdrawn(&self.index.withdrawn, consent)
    }

    // Returns whether the consent that was given at the dot is by the subject to the client, and
    // covers the scope.
    fn covers(&self, client: Dot, subject: &Subject, scope: &Scope, consent: Dot) -> bool
        ensures { result ≡ spec.covers (held_facts self.now) client subject.now scope.now consent }
    {
        grants(self.given_at(consent), client, subject, scope)
    }

    // Returns whether the key is that of a consent to the client, and the consent at its dot is by
    // the subject to the client and covers the scope.
    fn covers_by(&self, client: Dot, subject: &Subject, scope: &Scope, key: &ConsentKey) -> bool
        ensures { result ≡ (is_same_dot key.now.client client
            && spec.covers (held_facts self.now) client subject.now scope.now key.now.consent) }
    {
        same_dots(key.client, client) && self.covers(client, subject, scope, key.consent)
    }

    // Returns the first key of the subject's consents to the client whose consent covers the scope.
    // With the table of live consents, this is the key of the lowest live consent that does. Keys
    // of other clients are passed over without a look-up.
    fn first_key<'a>(
        &self,
        consents: &'a BTreeSet<ConsentKey>,
        client: Dot,
        subject: &Subject,
        scope: &Scope,
    ) -> Option<&'a ConsentKey>
        ensures first { option_copied result ≡ find (λ k. is_same_dot k.client client
            && spec.covers (held_facts self.now) client subject.now scope.now k.consent)
            (consents_above consents.now (sha256 subject.now) None) }
        ensures sorted { IsOrdered consent_cmp consents.now }
    {
        let digest = subject_digest(subject);
        let (first, last) = (consents_from(&digest, None), last_consent(&digest));
        consents
            .range((first, Bound::Included(last)))
            .find(|key| self.covers_by(client, subject, scope, key))
    }

    // Returns the lowest dot of a live consent of this subject to this client that covers the
    // scope.
    pub(crate) fn first_consent(&self, client: Dot, subject: &Subject, scope: &Scope) -> Option<Dot>
        ensures value { result
            ≡ spec.consent_for (held_facts self.now) client subject.now scope.now }
        ensures least { spec.IsLeastConsent (map.get (held_facts self.now)) client subject.now
            scope.now result }
    {
        match self.first_key(&self.index.consents, client, subject, scope) {
            Some(key) => Some(key.consent),
            None => None,
        }
    }
}
