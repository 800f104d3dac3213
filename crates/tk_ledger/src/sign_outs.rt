//! Sign-outs: the last sign-out of a subject, and whether a sign-out stops a code.

ghost use Rattle.std.specs.Prelude.{◌≡◌, Some};
ghost use Rattle.std.specs.BTreeSet.{IsOrdered};
ghost use Rattle.std.specs.FinMap as map;
ghost use Rattle.std.specs.List.{find};
ghost use Rattle.std.specs.Option.{option_copied};
ghost use Rattle.sha2.specs.Sha256.{sha256};
ghost use Rattle.tk_fact.specs.declared.subject_out.SubjectOut as out;
ghost use Rattle.tk_store.specs.StoreFields.{held_facts};
ghost use Rattle.tk_ledger.specs.SignOuts as spec;
ghost use Rattle.tk_ledger.specs.SubjectTables.{IsOuts, out_cmp, outs_of, tells_by, tells_of};
ghost use Rattle.tk_ledger.specs.Tokens as tokens_of;

use crate::change::subject_digest;
use crate::compare::{same_bytes, same_dots};
use crate::looks::issued_at;
use crate::subject_keys::{OutKey, left, out_span};
use std::collections::BTreeSet;
use std::ops::Bound;
use tk_fact::{Body, CodeIssued, Subject, SubjectOut};
use tk_handle::{Dot, Moment};
use tk_store::FactStore;

// Returns the sign-out that the body is, if it is one.
fn sign_out_in(body: &Body) -> Option<&SubjectOut>
    ensures { option_copied result ≡ spec.sign_out_in body.now }
{
    match body {
        Body::SubjectOut(fact) => Some(fact),
        _ => None,
    }
}

// Returns the sign-out at the dot.
fn held_sign_out(facts: &FactStore, at: Dot) -> Option<&SubjectOut>
    ensures { option_copied result ≡ spec.sign_out_at (map.get (held_facts facts.now)) at }
{
    match facts.get(at) {
        Some(fact) => sign_out_in(&fact.body),
        None => None,
    }
}

// Returns the sign-out at the dot, if it is not the one that is left out.
fn sign_out_at(facts: &FactStore, but: Option<Dot>, at: Dot) -> Option<&SubjectOut>
    ensures { option_copied result
        ≡ spec.sign_out_at (map.get (spec.all_but but (held_facts facts.now))) at }
{
    match but {
        Some(dot) => {
            if same_dots(dot, at) {
                None
            } else {
                held_sign_out(facts, at)
            }
        }
        None => held_sign_out(facts, at),
    }
}

// Returns whether the sign-out is one of the subject, with `until` seconds left after its moment.
fn tells_by(sign_out: Option<&SubjectOut>, subject: &Subject, until: u64) -> bool
    ensures { result ≡ tells_by subject.now until (option_copied sign_out.entry) }
{
    match sign_out {
        Some(fact) => {
            same_bytes(fact.subject.as_bytes(), subject.as_bytes()) && left(fact.moment) == until
        }
        None => false,
    }
}

// Returns whether the sign-out of the key is one of the subject, at the key's moment, and is not
// the one that is left out.
fn tells_of(facts: &FactStore, but: Option<Dot>, subject: &Subject, key: &OutKey) -> bool
    ensures { result
        ≡ tells_of (spec.all_but but (held_facts facts.now)) subject.now key.now }
{
    tells_by(sign_out_at(facts, but, key.place), subject, key.left)
}

// Returns the key of the last sign-out of the subject, but for the one that is left out. If no
// sign-out is held, no digest is computed.
#[tactic(auto, using(crate::proofs::SubjectKeyLaws::outs_empty))]
fn last_key<'a>(
    facts: &FactStore,
    outs: &'a BTreeSet<OutKey>,
    but: Option<Dot>,
    subject: &Subject,
) -> Option<&'a OutKey>
    ensures first { option_copied result
        ≡ find (tells_of (spec.all_but but (held_facts facts.now)) subject.now)
        (outs_of outs.now (sha256 subject.now)) }
    ensures sorted { IsOrdered out_cmp outs.now }
{
    if outs.is_empty() {
        return None;
    }
    let (first, last) = out_span(&subject_digest(subject));
    outs.range((Bound::Included(first), Bound::Included(last)))
        .find(|key| tells_of(facts, but, subject, key))
}

// Returns the moment of the last sign-out of the subject, but for the one that is left out.
pub(crate) fn last_sign_out(
    facts: &FactStore,
    outs: &BTreeSet<OutKey>,
    but: Option<Dot>,
    subject: &Subject,
) -> Option<Moment>
    requires { IsOuts (spec.all_but but (held_facts facts.now)) outs.now }
    ensures { spec.IsLastSignOut (map.get (spec.all_but but (held_facts facts.now))) subject.now
        result }
{
    let key = last_key(facts, outs, but, subject)?;
    Some(sign_out_at(facts, but, key.place)?.moment)
}

// Returns the first second that no sign-out of the subject reaches, but for the one at the dot.
fn first_unreached(facts: &FactStore, outs: &BTreeSet<OutKey>, dot: Dot, subject: &Subject) -> u64
    requires { IsOuts (map.remove (held_facts facts.now) dot) outs.now }
    ensures { spec.IsFirstUnreached (map.get (map.remove (held_facts facts.now) dot)) subject.now
        result }
{
    match last_sign_out(facts, outs, Some(dot), subject) {
        Some(last) => last.seconds() + 1,
        None => 0,
    }
}

// Returns the first second that no other sign-out reaches of the subject that signs out at the dot.
// Codes that start before it are stopped already.
pub(crate) fn first_left(facts: &FactStore, outs: &BTreeSet<OutKey>, dot: Dot) -> u64
    requires { IsOuts (map.remove (held_facts facts.now) dot) outs.now }
    ensures { (f : out.SubjectOut) → spec.sign_out_at (map.get (held_facts facts.now)) dot ≡ Some f
        → spec.IsFirstUnreached (map.get (map.remove (held_facts facts.now) dot)) f.subject result }
{
    match held_sign_out(facts, dot) {
        Some(fact) => first_unreached(facts, outs, dot, &fact.subject),
        None => 0,
    }
}

// Returns whether the subject signed out at the moment, or later.
fn is_signed_out(
    facts: &FactStore,
    outs: &BTreeSet<OutKey>,
    subject: &Subject,
    moment: Moment,
) -> bool
    requires { IsOuts (held_facts facts.now) outs.now }
    ensures { result ≡ spec.is_signed_out (held_facts facts.now) subject.now moment }
{
    match last_sign_out(facts, outs, None, subject) {
        Some(last) => moment.seconds() <= last.seconds(),
        None => false,
    }
}

// Returns whether the subject of the code signed out at its start, or later.
fn is_out_by(facts: &FactStore, outs: &BTreeSet<OutKey>, code: Option<&CodeIssued>) -> bool
    requires { IsOuts (held_facts facts.now) outs.now }
    ensures { result ≡ tokens_of.is_out_by (held_facts facts.now) (option_copied code.entry) }
{
    match code {
        Some(code) => is_signed_out(facts, outs, &code.subject, code.start),
        None => false,
    }
}

// Returns whether a code was issued at the dot whose subject signed out at its start, or later.
pub(crate) fn is_out(facts: &FactStore, outs: &BTreeSet<OutKey>, at: Dot) -> bool
    requires { IsOuts (held_facts facts.now) outs.now }
    ensures { result ≡ tokens_of.is_out (held_facts facts.now) at }
{
    is_out_by(facts, outs, issued_at(facts, at))
}
