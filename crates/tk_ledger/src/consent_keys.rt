//! The tables of consents: the live consents by key, and the dots of those that were withdrawn.

use tk_handle::Dot;

// The key of a live consent: the SHA-256 digest of its subject, its dot, its client. The live
// consents of a subject are neighbours, in the order of their dots.
#[derive(Clone, Copy, PartialEq, Eq, PartialOrd, Ord)]
pub(crate) struct ConsentKey {
    pub(crate) subject: [u8; 32],
    pub(crate) consent: Dot,
    pub(crate) client: Dot,
}

ghost use Rattle.std.specs.Prelude.{◌≡◌, OnOk, OnErr, ◌&&◌, ◌||◌, not, cond, true, Some};
ghost use Rattle.std.specs.BTreeSet.{contains};
ghost use Rattle.std.specs.Option.{option_map};
ghost use Rattle.std.specs.Ordering.{eq_by_cmp};
ghost use Rattle.tk_handle.specs.Dot.{IsDot, dot_cmp, greatest_dot};
ghost use Rattle.tk_handle.specs.declared.dot.Dot.{Dot as the_dot};
ghost use Rattle.tk_store.specs.StoreFields.{held_facts};
ghost use Rattle.tk_ledger.specs.Clients.{consent_at};
ghost use Rattle.tk_ledger.specs.Index.{
  is_at,
  consent_cmp,
  consent_key,
  consent_start,
  key_of,
  is_key_at,
};
ghost use Rattle.tk_ledger.specs.declared.consent_keys.ConsentKey.{ConsentKey as the_key};

use crate::change::subject_digest;
use crate::consents::given_in;
use std::alloc::AllocError;
use std::collections::BTreeSet;
use std::ops::Bound;
use tk_store::FactStore;

// Lists a consent that was given, unless a withdrawal of it is held.
pub(crate) fn give(
    consents: &mut BTreeSet<ConsentKey>,
    withdrawn: &BTreeSet<Dot>,
    client: Dot,
    subject: &[u8; 32],
    consent: Dot,
) -> Result<(), AllocError>
    ensures ok { OnOk result ((k : the_key) → contains consent_cmp consents.new k
        ≡ ((eq_by_cmp consent_cmp (consent_key client subject.now consent) k
        && not (contains dot_cmp withdrawn.now consent)) || contains consent_cmp consents.old k)) }
    ensures err { OnErr result ((k : the_key) → contains consent_cmp consents.new k
        ≡ contains consent_cmp consents.old k) }
    ensures ranged { IsDot consent }
    ensures client_ranged { IsDot client }
{
    let _ranges = (consent.region(), consent.serial());
    let _client_ranges = (client.region(), client.serial());
    if is_withdrawn(withdrawn, consent) {
        return Ok(());
    }
    consents.insert(ConsentKey {
        subject: *subject,
        consent,
        client,
    })?;
    Ok(())
}

// Returns the key of the consent that was given at the dot, if a consent is held there.
fn key_at(facts: &FactStore, consent: Dot) -> Option<ConsentKey>
    ensures { result ≡ option_map (key_of consent) (consent_at (held_facts facts.now) consent) }
{
    match facts.get(consent) {
        Some(fact) => match given_in(&fact.body) {
            Some(given) => Some(ConsentKey {
                subject: subject_digest(&given.subject),
                consent,
                client: given.client,
            }),
            None => None,
        },
        None => None,
    }
}

// Removes the key of the consent that was given at the dot, if a consent is held there.
fn unlist(facts: &FactStore, consents: &mut BTreeSet<ConsentKey>, consent: Dot)
    ensures { (k : the_key) → contains consent_cmp consents.new k
        ≡ (contains consent_cmp consents.old k
        && not (is_key_at (held_facts facts.now) consent k)) }
{
    if let Some(key) = key_at(facts, consent) {
        consents.remove(&key);
    }
}

// Notes a consent that was withdrawn, and removes its key. Only the note allocates memory.
pub(crate) fn withdraw(
    facts: &FactStore,
    consents: &mut BTreeSet<ConsentKey>,
    withdrawn: &mut BTreeSet<Dot>,
    consent: Dot,
) -> Result<(), AllocError>
    ensures ok { OnOk result ((q : the_dot) → contains dot_cmp withdrawn.new q
        ≡ cond (is_at consent q) true (contains dot_cmp withdrawn.old q)) }
    ensures unlisted { OnOk result ((k : the_key) → contains consent_cmp consents.new k
        ≡ (contains consent_cmp consents.old k
        && not (is_key_at (held_facts facts.now) consent k))) }
    ensures err { OnErr result ((q : the_dot) → contains dot_cmp withdrawn.new q
        ≡ contains dot_cmp withdrawn.old q) }
    ensures listed { OnErr result (consents.new ≡ consents.old) }
{
    withdrawn.insert(consent)?;
    unlist(facts, consents, consent);
    Ok(())
}

// Returns where the keys of the consents begin that the subject gave above the dot, or above none.
pub(crate) fn consents_from(subject: &[u8; 32], after: Option<Dot>) -> Bound<ConsentKey>
    ensures value { result ≡ consent_start subject.now after }
    ensures ranged { (d : the_dot) → after ≡ Some d → IsDot d }
{
    let key = |consent: Dot, client: Dot| ConsentKey {
        subject: *subject,
        consent,
        client,
    };
    match after {
        Some(dot) => {
            let _ranges = (dot.region(), dot.serial());
            Bound::Excluded(key(dot, Dot::greatest()))
        }
        None => Bound::Included(key(Dot::least(), Dot::least())),
    }
}

// Returns the greatest key that a consent of the subject can have.
pub(crate) fn last_consent(subject: &[u8; 32]) -> ConsentKey
    ensures { result ≡ consent_key greatest_dot subject.now greatest_dot }
{
    ConsentKey {
        subject: *subject,
        consent: Dot::greatest(),
        client: Dot::greatest(),
    }
}

// Returns whether a consent was withdrawn.
pub(crate) fn is_withdrawn(withdrawn: &BTreeSet<Dot>, consent: Dot) -> bool
    ensures { result ≡ contains dot_cmp withdrawn.now consent }
{
    withdrawn.contains(&consent)
}
