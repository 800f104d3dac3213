//! The table of secrets: the last turn of a client, and whether a secret was set at a turn.

use tk_handle::Dot;

// The key of a secret: its client, the turns left after its turn, the SHA-256 digest of the secret,
// and the dot of the fact. The last secret of a client is the first of its keys.
#[derive(Clone, Copy, PartialEq, Eq, PartialOrd, Ord)]
pub(crate) struct SecretKey {
    pub(crate) client: Dot,
    // The turns from the secret's turn to the greatest turn of a key.
    pub(crate) left: u64,
    pub(crate) digest: [u8; 32],
    pub(crate) place: Dot,
}

ghost use Rattle.std.specs.Prelude.{◌≡◌, ◌≤◌, OnOk, OnErr, cond, true, length};
ghost use Rattle.std.specs.BTreeSet.{IsOrdered, contains};
ghost use Rattle.std.specs.Ordering.{eq_by_cmp};
ghost use Rattle.tk_handle.specs.Dot.{IsDot, least_dot, greatest_dot};
ghost use Rattle.tk_store.specs.StoreFields.{held_facts};
ghost use Rattle.tk_ledger.specs.SecretTables as spec;
ghost use Rattle.tk_ledger.specs.SecretTables.{secret_cmp, secret_key};
ghost use Rattle.tk_ledger.specs.Secrets as secrets_of;
ghost use Rattle.tk_ledger.specs.declared.secrets.SecretKey.{SecretKey as the_key};

use crate::ledger::Ledger;
use std::alloc::AllocError;
use std::collections::BTreeSet;
use std::ops::Bound;

// Returns the turns from the turn to the greatest turn of a key.
fn left(turn: u64) -> u64
    ensures value { result ≡ spec.turns_left turn }
    ensures early { turn ≤ spec.max_key }
{
    u64::MAX - turn
}

// Returns the key of a secret.
fn key(client: Dot, turn: u64, digest: &[u8; 32], place: Dot) -> SecretKey
    ensures { result ≡ secret_key client (spec.turns_left turn) digest.now place }
{
    SecretKey {
        client,
        left: left(turn),
        digest: *digest,
        place,
    }
}

// Notes that the fact at the dot set the secret of the client at the turn.
pub(crate) fn list_secret(
    secrets: &mut BTreeSet<SecretKey>,
    client: Dot,
    turn: u64,
    digest: &[u8; 32],
    place: Dot,
) -> Result<(), AllocError>
    ensures ok { OnOk result ((k : the_key) → contains secret_cmp secrets.new k ≡ cond
        (eq_by_cmp secret_cmp (secret_key client (spec.turns_left turn) digest.now place) k) true
        (contains secret_cmp secrets.old k)) }
    ensures err { OnErr result ((k : the_key)
        → contains secret_cmp secrets.new k ≡ contains secret_cmp secrets.old k) }
    ensures ranged { IsDot place }
    ensures sized { length digest.now ≡ 32 }
    ensures early { turn ≤ spec.max_key }
{
    let _ranges = (place.region(), place.serial(), *digest);
    secrets.insert(key(client, turn, digest, place))?;
    Ok(())
}

// Returns the least and the greatest key that a secret of the client can have.
fn client_span(client: Dot) -> (SecretKey, SecretKey)
    ensures first { result.0 ≡ spec.first_of client }
    ensures last { result.1 ≡ spec.last_of client }
{
    (
        key(client, u64::MAX, &[0; 32], Dot::least()),
        key(client, 0, &[u8::MAX; 32], Dot::greatest()),
    )
}

// Returns the last turn at which a secret of the client was set, or 0, by one look-up.
pub(crate) fn last_turn(secrets: &BTreeSet<SecretKey>, client: Dot) -> u64
    ensures value { result ≡ spec.last_listed secrets.now client }
    ensures sorted { IsOrdered secret_cmp secrets.now }
{
    let (first, last) = client_span(client);
    match secrets
        .range((Bound::Included(first), Bound::Included(last)))
        .next()
    {
        Some(key) => {
            let key = *key;
            u64::MAX - key.left
        }
        None => 0,
    }
}

// Returns the least and the greatest key that the secret with the digest of the client can have at
// the turn.
fn secret_span(client: Dot, turn: u64, digest: &[u8; 32]) -> (SecretKey, SecretKey)
    ensures first { result.0 ≡ secret_key client (spec.turns_left turn) digest.now least_dot }
    ensures last { result.1 ≡ secret_key client (spec.turns_left turn) digest.now greatest_dot }
{
    (
        key(client, turn, digest, Dot::least()),
        key(client, turn, digest, Dot::greatest()),
    )
}

// Returns whether a secret with the digest was set for the client at the turn, by one look-up.
pub(crate) fn is_set(
    secrets: &BTreeSet<SecretKey>,
    client: Dot,
    turn: u64,
    digest: &[u8; 32],
) -> bool
    ensures value { result
        ≡ spec.has_secret secrets.now client (spec.turns_left turn) digest.now }
    ensures early { turn ≤ spec.max_key }
{
    let (first, last) = secret_span(client, turn, digest);
    secrets
        .range((Bound::Included(first), Bound::Included(last)))
        .next()
        .is_some()
}

impl Ledger {
    // Returns whether a secret with the digest was set for the client at the turn.
    pub(crate) fn was_set(&self, client: Dot, turn: u64, digest: &[u8; 32]) -> bool
        ensures { result ≡ secrets_of.is_set (held_facts self.now) client turn digest.now }
    {
        is_set(&self.index.secrets, client, turn, digest)
    }
}
