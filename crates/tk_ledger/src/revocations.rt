//! The table of revocations.

use tk_handle::Dot;

// The key of a revocation: a token, its digest, the client that revoked it, and the dot of the
// fact. The revocations of one token by one client are neighbours.
#[derive(Clone, Copy, PartialEq, Eq, PartialOrd, Ord)]
pub(crate) struct Revocation {
    pub(crate) dot: Dot,
    // The number of the token's kind.
    pub(crate) kind: u8,
    pub(crate) digest: [u8; 32],
    pub(crate) client: Dot,
    pub(crate) place: Dot,
}

ghost use Rattle.std.specs.Prelude.{◌≡◌, OnOk, OnErr, cond, true, false};
ghost use Rattle.std.specs.BTreeSet.{contains};
ghost use Rattle.std.specs.Ordering.{eq_by_cmp};
ghost use Rattle.tk_handle.specs.Dot.{IsDot, least_dot, greatest_dot};
ghost use Rattle.tk_ledger.specs.Index.{revocation_cmp, revocation_key, has_revocation};
ghost use Rattle.tk_ledger.specs.declared.revocations.Revocation.{Revocation as the_revocation};

use std::alloc::AllocError;
use std::collections::BTreeSet;
use std::ops::Bound;
use tk_handle::TokenId;

// Returns the key of a revocation.
fn key(token: &TokenId, digest: &[u8; 32], client: Dot, place: Dot) -> Revocation
    ensures { result ≡ revocation_key token.now digest.now client place }
{
    Revocation {
        dot: token.dot,
        kind: token.kind.number(),
        digest: *digest,
        client,
        place,
    }
}

// Notes that by the fact at the dot the client revoked the token with the digest.
pub(crate) fn revoke(
    revocations: &mut BTreeSet<Revocation>,
    token: &TokenId,
    digest: &[u8; 32],
    client: Dot,
    place: Dot,
) -> Result<(), AllocError>
    ensures ok { OnOk result ((q : the_revocation) → contains revocation_cmp revocations.new q
        ≡ cond (eq_by_cmp revocation_cmp (revocation_key token.now digest.now client place) q) true
        (contains revocation_cmp revocations.old q)) }
    ensures err { OnErr result ((q : the_revocation) → contains revocation_cmp revocations.new q
        ≡ contains revocation_cmp revocations.old q) }
    ensures ranged { IsDot place }
{
    let _ranges = (place.region(), place.serial());
    revocations.insert(key(token, digest, client, place))?;
    Ok(())
}

// Removes the key of a revocation.
pub(crate) fn drop_revocation(
    revocations: &mut BTreeSet<Revocation>,
    token: &TokenId,
    digest: &[u8; 32],
    client: Dot,
    place: Dot,
)
    ensures { (q : the_revocation) → contains revocation_cmp revocations.new q
        ≡ cond (eq_by_cmp revocation_cmp (revocation_key token.now digest.now client place) q) false
        (contains revocation_cmp revocations.old q) }
{
    revocations.remove(&key(token, digest, client, place));
}

// Returns the least and the greatest key that a revocation, by the client, of the token with the
// digest can have.
fn revocation_span(token: &TokenId, digest: &[u8; 32], client: Dot) -> (Revocation, Revocation)
    ensures first { result.0 ≡ revocation_key token.now digest.now client least_dot }
    ensures last { result.1 ≡ revocation_key token.now digest.now client greatest_dot }
{
    (
        key(token, digest, client, Dot::least()),
        key(token, digest, client, Dot::greatest()),
    )
}

// Returns whether the client revoked the token with the digest, by one look-up.
pub(crate) fn is_revoked(
    revocations: &BTreeSet<Revocation>,
    token: &TokenId,
    digest: &[u8; 32],
    client: Dot,
) -> bool
    ensures { result ≡ has_revocation revocations.now token.now digest.now client }
{
    let (first, last) = revocation_span(token, digest, client);
    revocations
        .range((Bound::Included(first), Bound::Included(last)))
        .next()
        .is_some()
}
