//! The table of reuses.

use tk_handle::Dot;

// The key of a reuse: a token, and the dot of the fact that its reuse was seen. The reuses of one
// token are neighbours.
#[derive(Clone, Copy, PartialEq, Eq, PartialOrd, Ord)]
pub(crate) struct ReuseKey {
    pub(crate) dot: Dot,
    // The number of the token's kind.
    pub(crate) kind: u8,
    pub(crate) place: Dot,
}

ghost use Rattle.std.specs.Prelude.{◌≡◌, OnOk, OnErr, cond, true, false};
ghost use Rattle.std.specs.BTreeSet.{contains};
ghost use Rattle.std.specs.Ordering.{eq_by_cmp};
ghost use Rattle.tk_handle.specs.Dot.{IsDot, least_dot, greatest_dot};
ghost use Rattle.tk_ledger.specs.Index.{
  reuse_cmp,
  reuse_key,
  has_reuse,
};
ghost use Rattle.tk_ledger.specs.declared.reuses.ReuseKey.{ReuseKey as the_key};

use std::alloc::AllocError;
use std::collections::BTreeSet;
use std::ops::Bound;
use tk_handle::TokenId;

// Returns the key of a reuse.
fn key(token: &TokenId, place: Dot) -> ReuseKey
    ensures { result ≡ reuse_key token.now place }
{
    ReuseKey {
        dot: token.dot,
        kind: token.kind.number(),
        place,
    }
}

// Notes that the fact at the dot saw a reuse of the token.
pub(crate) fn list_reuse(
    reuses: &mut BTreeSet<ReuseKey>,
    token: &TokenId,
    place: Dot,
) -> Result<(), AllocError>
    ensures ok { OnOk result ((k : the_key) → contains reuse_cmp reuses.new k
        ≡ cond (eq_by_cmp reuse_cmp (reuse_key token.now place) k) true
        (contains reuse_cmp reuses.old k)) }
    ensures err { OnErr result ((k : the_key) → contains reuse_cmp reuses.new k
        ≡ contains reuse_cmp reuses.old k) }
    ensures ranged { IsDot place }
{
    let _ranges = (place.region(), place.serial());
    reuses.insert(key(token, place))?;
    Ok(())
}

// Removes the key of a reuse.
pub(crate) fn drop_reuse(reuses: &mut BTreeSet<ReuseKey>, token: &TokenId, place: Dot)
    ensures { (k : the_key) → contains reuse_cmp reuses.new k
        ≡ cond (eq_by_cmp reuse_cmp (reuse_key token.now place) k) false
        (contains reuse_cmp reuses.old k) }
{
    reuses.remove(&key(token, place));
}

// Returns the least and the greatest key that a reuse of the token can have.
fn reuse_span(token: &TokenId) -> (ReuseKey, ReuseKey)
    ensures first { result.0 ≡ reuse_key token.now least_dot }
    ensures last { result.1 ≡ reuse_key token.now greatest_dot }
{
    (key(token, Dot::least()), key(token, Dot::greatest()))
}

// Returns whether a reuse of the token was seen, by one look-up.
pub(crate) fn is_reused(reuses: &BTreeSet<ReuseKey>, token: &TokenId) -> bool
    ensures { result ≡ has_reuse reuses.now token.now }
{
    let (first, last) = reuse_span(token);
    reuses
        .range((Bound::Included(first), Bound::Included(last)))
        .next()
        .is_some()
}
