//! The versions of a bundle's bytes: the kinds of facts that each has, and whether it has marks and
//! runs of marks.

/// A version of a bundle's bytes (own).
#[derive(Clone, Copy)]
pub(crate) struct Version {
    /// The digit behind `OTB`.
    digit: u8,
    /// The number of the newest kind: the version has facts of the kinds up to this one.
    kinds: u8,
    /// Whether the version has marks of skipped facts, and then a horizon.
    marks: bool,
    /// Whether the version has runs of marks.
    runs: bool,
}

// A bundle keeps the version that it was written in: once a row is in a release it never changes,
// and a later version is one row more.
const VERSIONS: [Version; 6] = [
    Version {
        digit: b'1',
        kinds: 9,
        marks: false,
        runs: false,
    },
    Version {
        digit: b'2',
        kinds: 10,
        marks: false,
        runs: false,
    },
    Version {
        digit: b'3',
        kinds: 10,
        marks: true,
        runs: false,
    },
    Version {
        digit: b'4',
        kinds: 23,
        marks: false,
        runs: false,
    },
    Version {
        digit: b'5',
        kinds: 23,
        marks: true,
        runs: false,
    },
    Version {
        digit: b'6',
        kinds: 23,
        marks: true,
        runs: true,
    },
];

ghost use Rattle.std.specs.Prelude.{◌≡◌};
ghost use Rattle.std.specs.List.{list_any};
ghost use Rattle.tk_store.specs.SlotShown.{shown_slot};
ghost use Rattle.tk_bundle.specs.BundleFields.{is_mark};
ghost use Rattle.tk_bundle.specs.Versions as spec;

use crate::item::{Item, is_mark};
use tk_fact::{Body, ClientAdded};
use tk_store::SlotRef;

// Returns the number of the kind that a version must have for a client.
fn kind_of_client(client: &ClientAdded) -> u8
    ensures { result ≡ spec.kind_of_client client.now.client_kind client.now.lives }
{
    match client.lives {
        Some(_) => 13,
        None => {
            if client.client_kind.keeps_refresh() {
                12
            } else {
                1
            }
        }
    }
}

// Returns the number of the kind that a version must have for a body in which no operator is named:
// that of the client that it adds, or else the body's own.
fn bare_kind_of(body: &Body) -> u8
    ensures { result ≡ spec.bare_kind_of body.now }
{
    match body {
        Body::ClientAdded(client) => kind_of_client(client),
        Body::ClientRetired(_) => 2,
        Body::ConsentGiven(_) => 3,
        Body::ConsentWithdrawn(_) => 4,
        Body::CodeIssued(_) => 5,
        Body::CodeRedeemed(_) => 6,
        Body::RefreshRotated(_) => 7,
        Body::TokenRevoked(_) => 8,
        Body::ReuseSeen(_) => 9,
        Body::SubjectOut(_) => 10,
        Body::AccessRefreshed(_) => 12,
        Body::SecretSet(_) => 15,
    }
}

// Returns the number of the kind that a version must have for a body: the newest if an operator is
// named in it.
pub(crate) fn kind_of(body: &Body) -> u8
    ensures { result ≡ spec.kind_of body.now }
{
    match body.by() {
        None => bare_kind_of(body),
        Some(_) => 23,
    }
}

// Returns whether the version has the kinds up to the given one, and marks and runs if they are
// needed.
fn has_all(version: &Version, kind: u8, marked: bool, runs: bool) -> bool
    ensures { result ≡ spec.has_all version.now kind marked runs }
{
    kind <= version.kinds && (!marked || version.marks) && (!runs || version.runs)
}

// Returns the digit of the first version that has the kinds up to the given one, and marks and runs
// if they are needed; 0, which is the digit of no version, if no version has.
pub(crate) fn version_with(kind: u8, marked: bool, runs: bool) -> u8
    ensures { result ≡ spec.version_with kind marked runs }
{
    digit_in(&VERSIONS, kind, marked, runs)
}

// Returns the digit of the first version in the list that has the kinds up to the given one, and
// marks and runs if they are needed; 0 if no version has.
fn digit_in(versions: &[Version], kind: u8, marked: bool, runs: bool) -> u8
    ensures { result ≡ spec.digit_in versions.now kind marked runs }
{
    for version in versions {
        if has_all(version, kind, marked, runs) {
            return version.digit;
        }
    }
    0
}

// Returns the number of the kind that a version must have for a fact; 0 for a mark, which needs no
// kind.
pub(crate) fn kind_in(slot: &SlotRef<'_>) -> u8
    ensures { result ≡ spec.kind_in (shown_slot slot.now) }
{
    match slot {
        SlotRef::Held(fact) => kind_of(&fact.body),
        SlotRef::Skipped => 0,
    }
}

// Returns the digit of the first version that has all of the items, and runs if marks are spelled
// as runs.
pub(crate) fn version_of(runs: bool, items: &[Item]) -> u8
    ensures { result ≡ spec.version_of runs items.now }
{
    version_with(newest_kind(items), has_mark(items), runs)
}

// Returns whether one of the items is a mark.
fn has_mark(items: &[Item]) -> bool
    ensures { result ≡ list_any is_mark items.now }
{
    items.iter().any(|item| is_mark(item))
}

// Returns the newest kind among the items.
fn newest_kind(items: &[Item]) -> u8
    ensures { result ≡ spec.newest_kind 0 items.now }
{
    let mut newest: u8 = 0;
    for item in items {
        newest = newest.max(kind_in(&item.slot()));
    }
    newest
}

// Returns whether the digit is that of a version.
#[tactic(auto, unfolding(crate::specs::Versions::is_version))]
pub(crate) fn is_version(digit: u8) -> bool
    ensures { result ≡ spec.is_version digit }
{
    VERSIONS.iter().any(|version| version.digit == digit)
}

// Returns whether a bundle of the version has a horizon: it has marks.
#[tactic(auto, unfolding(crate::specs::Versions::has_horizon))]
pub(crate) fn has_horizon(digit: u8) -> bool
    ensures { result ≡ spec.has_horizon digit }
{
    VERSIONS
        .iter()
        .any(|version| version.digit == digit && version.marks)
}

// Returns whether a bundle of the version has runs of marks.
#[tactic(auto, unfolding(crate::specs::Versions::has_runs))]
pub(crate) fn has_runs(digit: u8) -> bool
    ensures { result ≡ spec.has_runs digit }
{
    VERSIONS
        .iter()
        .any(|version| version.digit == digit && version.runs)
}
