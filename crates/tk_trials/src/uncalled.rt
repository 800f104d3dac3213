//! Calls that no program makes, or that no row shows by itself.
//!
//! - No program makes these: what a vector covers, joins of vectors, stores and ledgers, and what a
//!   fact uses.
//! - No row shows these by itself: a walk over a store, a fact taken back, another body at a dot (a
//!   region checks before it adds), and the text of a dot.
//!
//! The rows of `check/rows/` show the other calls of the crates below.

ghost use Rattle.std.specs.Prelude.{◌≡◌, None};
ghost use Rattle.tk_fact.specs.Check.{refusal_of};

use std::alloc::{AllocError, Global};
use tk_fact::{Body, ClientRetired, Fact};
use tk_handle::{Dot, Kind, RegionNumber, TokenId};
use tk_ledger::Ledger;
use tk_store::{AddError, Added, FactStore};
use tk_vector::{Join, VersionVector};

// A region and a serial.
type Place = (u16, u64);

fn dot((region, serial): Place) -> Option<Dot> {
    Dot::new(RegionNumber::new(region)?, serial)
}

fn place(dot: Dot) -> Place {
    (dot.region().number(), dot.serial())
}

// ---- vectors

// Returns the entries of the regions 1 and 2.
fn entries(vector: &VersionVector) -> Option<(u64, u64)> {
    let one = RegionNumber::new(1)?;
    let two = RegionNumber::new(2)?;
    Some((vector.get(one), vector.get(two)))
}

// Returns both entries, whether 2:8 is covered, and whether 2:9 is.
fn told(vector: &VersionVector) -> Option<(u64, u64, bool, bool)> {
    let (first, second) = entries(vector)?;
    let (last, next) = (dot((2, 8))?, dot((2, 9))?);
    Some((first, second, vector.covers(last), vector.covers(next)))
}

// Joins the other vector to the first, and returns the entries of the union and what it covers;
// `None` if the other vector isn't below the union.
fn joined(vector: &mut VersionVector, other: &VersionVector) -> Option<(u64, u64, bool, bool)> {
    match vector.join_from(other) {
        Ok(()) if other.below(vector) => told(vector),
        _ => None,
    }
}

fn joined_text(alloc: Global, vector: &mut VersionVector) -> Option<(u64, u64, bool, bool)> {
    match &VersionVector::read_text(alloc, b"1:3,2:7") {
        Ok(other) => joined(vector, other),
        Err(_) => None,
    }
}

fn joined_texts(alloc: Global) -> Option<(u64, u64, bool, bool)> {
    match &mut VersionVector::read_text(alloc, b"1:2,2:8") {
        Ok(vector) => joined_text(alloc, vector),
        Err(_) => None,
    }
}

#[test]
fn two_vectors_are_joined(rt: HostRuntime) {
    assert!(rt; joined_texts(rt.alloc()) == Some((3, 8, true, false)));
}

fn lower(vector: &mut VersionVector) -> Option<(u64, u64)> {
    vector.lower(RegionNumber::new(2)?, 3);
    entries(vector)
}

fn lowered(alloc: Global) -> Option<(u64, u64)> {
    match &mut VersionVector::read_text(alloc, b"1:5,2:7") {
        Ok(vector) => lower(vector),
        Err(_) => None,
    }
}

#[test]
fn an_entry_is_lowered(rt: HostRuntime) {
    assert!(rt; lowered(rt.alloc()) == Some((5, 3)));
}

// ---- stores

fn retirement(at: Dot, client: Dot) -> Fact
    ensures { refusal_of result.1 ≡ None }
{
    Fact {
        dot: at,
        body: Body::ClientRetired(ClientRetired { client, by: None }),
    }
}

// Adds retirements at these dots, which differ, in this order.
fn add_each(store: &mut FactStore, places: &[Place]) -> bool {
    for at in places {
        if add(store, *at) != Some(true) {
            return false;
        }
    }
    true
}

fn add(store: &mut FactStore, at: Place) -> Option<bool> {
    let at = dot(at)?;
    Some(store.add(retirement(at, at)) == Ok(Added::New))
}

fn walks(store: &FactStore, places: &[Place]) -> bool {
    let mut facts = store.facts();
    for at in places {
        match facts.next() {
            Some(fact) if place(fact.dot) == *at => {}
            _ => return false,
        }
    }
    facts.next().is_none()
}

// Takes the fact at the dot back, and returns whether there was one.
fn take_back(store: &mut FactStore, at: Dot) -> bool {
    match store.take_back(at) {
        Some(fact) => {
            let is_there = fact.dot == at;
            drop(fact);
            is_there
        }
        None => false,
    }
}

// Takes the fact at 1:3 back. Returns whether there was one, between the fronts before and after.
fn taken_back(store: &mut FactStore) -> Option<(u64, bool, u64)> {
    let at = dot((1, 3))?;
    let before = store.vector().get(at.region());
    let is_there = take_back(store, at);
    Some((before, is_there, store.vector().get(at.region())))
}

// The result once the other facts are joined; `None` if the other facts aren't below the union
// then, or a walk over the union differs.
fn join(store: &mut FactStore, other: &FactStore) -> Option<(u64, bool, u64)> {
    match store.join_from(other) {
        Ok(()) if other.below(store) && walks(store, &[(1, 1), (1, 2), (1, 3), (2, 1)]) => {
            taken_back(store)
        }
        _ => None,
    }
}

fn joined_stores(alloc: Global) -> Option<(u64, bool, u64)> {
    let mut store = FactStore::new(alloc);
    let mut other = FactStore::new(alloc);
    if add_each(&mut store, &[(1, 2)]) && add_each(&mut other, &[(2, 1), (1, 3), (1, 1)]) {
        join(&mut store, &other)
    } else {
        None
    }
}

#[test]
fn two_stores_are_joined_and_a_fact_is_taken_back(rt: HostRuntime) {
    assert!(rt; joined_stores(rt.alloc()) == Some((3, true, 2)));
}

type Ends = Result<Added, AddError>;

// How the addition of 1:2 ends, then that of the same body, then that of another body.
fn added(store: &mut FactStore) -> Option<[Ends; 3]> {
    let (at, other) = (dot((1, 2))?, dot((9, 9))?);
    let first = store.add(retirement(at, at));
    let same = store.add(retirement(at, at));
    Some([first, same, store.add(retirement(at, other))])
}

#[test]
fn a_dot_has_one_body(rt: HostRuntime) {
    let ends = added(&mut FactStore::new(rt.alloc()));
    assert!(rt; ends == Some([Ok(Added::New), Ok(Added::Held), Err(AddError::Conflict)]));
}

// ---- ledgers

// Returns whether a ledger of a fact at the one dot joins a ledger of a fact at the other.
fn are_joined(ledger: &mut Ledger, other: &mut Ledger, one: Dot, two: Dot) -> bool {
    ledger.add(retirement(one, one)) == Ok(Added::New)
        && other.add(retirement(two, one)) == Ok(Added::New)
        && ledger.join_from(other) == Ok(())
        && other.below(ledger)
        && !ledger.below(other)
        && ledger.store().len() == 2
}

fn joined_ledgers(alloc: Global) -> Option<bool> {
    let (one, two) = (dot((1, 1))?, dot((2, 1))?);
    let mut ledger = Ledger::new(alloc);
    let mut other = Ledger::new(alloc);
    let are_joined = are_joined(&mut ledger, &mut other, one, two);
    drop(ledger);
    drop(other);
    Some(are_joined)
}

#[test]
fn two_ledgers_are_joined(rt: HostRuntime) {
    assert!(rt; joined_ledgers(rt.alloc()) == Some(true));
}

// ---- dots and facts

// Returns whether the text was written, without running out of memory, and is the expected one.
fn is_written(written: Result<String, AllocError>, text: &str) -> bool {
    match written {
        Ok(written) => written.as_str() == text,
        Err(_) => false,
    }
}

fn has_text(alloc: Global) -> Option<bool> {
    let dot = dot((20, 300))?;
    Some(is_written(format!(in alloc; "{dot}"), "20:300"))
}

#[test]
fn a_dot_has_a_text(rt: HostRuntime) {
    assert!(rt; has_text(rt.alloc()) == Some(true));
}

// The redemption of the code of 1:4.
const REDEEMED_CODE: &[u8] =
    b"\x00\x01\x00\x00\x00\x00\x00\x00\x00\x05\x06\x00\x01\x00\x00\x00\x00\x00\x00\x00\x04\x00\x00\x00\x00\x00\x00\x03\xf20123456789abcdef0123456789abcdef\x00\x00\x00\x00\x00\x00\x05\x1e\x00\x04readfedcba9876543210fedcba9876543210\x00\x00\x00\x00\x00\x00#(\x00\x04read";

fn used(alloc: Global) -> Option<TokenId> {
    match Fact::read(alloc, REDEEMED_CODE) {
        Ok(fact) => {
            let used = fact.uses();
            drop(fact);
            used
        }
        Err(_) => None,
    }
}

fn is_code_used(alloc: Global) -> Option<bool> {
    let (dot, kind) = (dot((1, 4))?, Kind::Code);
    Some(used(alloc) == Some(TokenId { dot, kind }))
}

#[test]
fn a_fact_uses_a_code(rt: HostRuntime) {
    assert!(rt; is_code_used(rt.alloc()) == Some(true));
}
