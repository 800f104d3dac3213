//! The marks of codes and refresh tokens in a family: tokens whose reuse was seen, refresh tokens
//! that their client revoked, and codes whose subject signed out, whichever fact arrives first.

ghost use Rattle.std.specs.Prelude.{◌≡◌, ◌≤◌, ◌&&◌, nat_le, IsSome, cond};
ghost use Rattle.std.specs.FinMap as map;
ghost use Rattle.std.specs.FinSet as set;
ghost use Rattle.std.specs.Option.{option_copied, option_map};
ghost use Rattle.tk_handle.specs.declared.dot.Dot.{Dot as the_dot};
ghost use Rattle.tk_handle.specs.declared.token_id.TokenId.{TokenId as the_token};
ghost use Rattle.tk_fact.specs.Tokens.{shown_minted};
ghost use Rattle.tk_family.specs.Dots.{dot_eq, has};
ghost use Rattle.tk_store.specs.StoreFields.{held_facts};
ghost use Rattle.tk_ledger.specs.Bodies.{is_same_token};
ghost use Rattle.tk_ledger.specs.ByTop.{ended_in};
ghost use Rattle.tk_ledger.specs.Index.{IsRevocations, IsReuses, Wakes, grant_kind};
ghost use Rattle.tk_ledger.specs.SubjectTables.{IsOuts, codes_started, dots_of};
ghost use Rattle.tk_ledger.specs.Tokens as spec;

use crate::looks::{code_above, issued_at, minted_at, root_above};
use crate::reuses::{ReuseKey, is_reused};
use crate::revocations::{Revocation, is_revoked};
use crate::root::Root;
use crate::sign_outs::is_out;
use crate::subject_keys::{CodeKey, OutKey, code_span};
use std::alloc::AllocError;
use std::collections::BTreeSet;
use std::ops::Bound;
use tk_fact::{CodeIssued, Minted};
use tk_family::Forest;
use tk_handle::{Dot, Kind, TokenId};
use tk_store::FactStore;

// Returns whether the client of the root revoked the token, by the table.
fn is_ended_by(
    revocations: &BTreeSet<Revocation>,
    token: &TokenId,
    minted: &Option<Minted<'_>>,
    root: &Option<Root<'_>>,
) -> bool
    ensures { result ≡ ended_in revocations.now token.now (option_map shown_minted minted.now)
        root.now }
{
    match (minted, root) {
        (Some(minted), Some(root)) => {
            is_revoked(revocations, token, minted.digest, root.issued.client)
        }
        (Some(_), None) => false,
        (None, _) => false,
    }
}

// Returns whether the client of the code that the token is under revoked the token.
fn is_ended(
    facts: &FactStore,
    revocations: &BTreeSet<Revocation>,
    forest: &Forest,
    token: &TokenId,
) -> bool
    requires revocations { IsRevocations (held_facts facts.now) revocations.now }
    requires links { (q : the_dot)
        → map.get forest.now.links q ≡ spec.links_in (map.get (held_facts facts.now)) q }
    ensures { result ≡ spec.is_ended (held_facts facts.now) token.now }
{
    is_ended_by(
        revocations,
        token,
        &minted_at(facts, token),
        &root_above(facts, forest, token.dot),
    )
}

// Returns whether a revocation or a sign-out stops the token.
fn is_stopped(
    facts: &FactStore,
    revocations: &BTreeSet<Revocation>,
    outs: &BTreeSet<OutKey>,
    forest: &Forest,
    token: &TokenId,
) -> bool
    requires revocations { IsRevocations (held_facts facts.now) revocations.now }
    requires outs { IsOuts (held_facts facts.now) outs.now }
    requires links { (q : the_dot)
        → map.get forest.now.links q ≡ spec.links_in (map.get (held_facts facts.now)) q }
    ensures { result ≡ spec.is_stopped (held_facts facts.now) token.now }
{
    match token.kind {
        Kind::Code => is_out(facts, outs, token.dot),
        Kind::Access => false,
        Kind::Refresh => is_ended(facts, revocations, forest, token),
    }
}

// Returns whether the token's reuse was seen, or a revocation or a sign-out stops the token.
fn is_marked(
    facts: &FactStore,
    revocations: &BTreeSet<Revocation>,
    outs: &BTreeSet<OutKey>,
    reuses: &BTreeSet<ReuseKey>,
    forest: &Forest,
    token: &TokenId,
) -> bool
    requires revocations { IsRevocations (held_facts facts.now) revocations.now }
    requires outs { IsOuts (held_facts facts.now) outs.now }
    requires reuses { IsReuses (held_facts facts.now) reuses.now }
    requires links { (q : the_dot)
        → map.get forest.now.links q ≡ spec.links_in (map.get (held_facts facts.now)) q }
    ensures { result ≡ spec.is_marked (held_facts facts.now) token.now }
{
    is_reused(reuses, token) || is_stopped(facts, revocations, outs, forest, token)
}

// Marks a token, or removes its mark. The token's dot has a link: no memory is allocated.
fn set_mark(forest: &mut Forest, token: TokenId, marked: bool)
    requires { IsSome (map.get forest.old.links token.dot) }
    ensures links { forest.new.links ≡ forest.old.links }
    ensures marks { (k : the_token) → set.contains forest.new.marks k
        ≡ cond (is_same_token token k) marked (set.contains forest.old.marks k) }
{
    if marked {
        let done: Result<(), AllocError> = forest.mark(token);
        done.unwrap();
    } else {
        forest.unmark(token);
    }
}

// Marks a token, or removes its mark, as the facts say. The token's dot has a link.
fn write_mark(
    facts: &FactStore,
    revocations: &BTreeSet<Revocation>,
    outs: &BTreeSet<OutKey>,
    reuses: &BTreeSet<ReuseKey>,
    forest: &mut Forest,
    token: TokenId,
)
    requires revocations { IsRevocations (held_facts facts.now) revocations.now }
    requires outs { IsOuts (held_facts facts.now) outs.now }
    requires reuses { IsReuses (held_facts facts.now) reuses.now }
    requires links { (q : the_dot)
        → map.get forest.old.links q ≡ spec.links_in (map.get (held_facts facts.now)) q }
    requires here { IsSome (map.get forest.old.links token.dot) }
    ensures links { forest.new.links ≡ forest.old.links }
    ensures marks { (k : the_token) → set.contains forest.new.marks k
        ≡ cond (is_same_token token k) (spec.is_marked (held_facts facts.now) token)
        (set.contains forest.old.marks k) }
{
    let marked = is_marked(facts, revocations, outs, reuses, forest, &token);
    set_mark(forest, token, marked);
}

// Returns the kind of the grant at a dot in a family, by the code that was issued there, if any.
fn grant_kind(code: Option<&CodeIssued>) -> Kind
    ensures { result ≡ grant_kind (option_copied code.entry) }
{
    match code {
        Some(_) => Kind::Code,
        None => Kind::Refresh,
    }
}

// Writes the mark of the grant of a dot, which is a code or a refresh token, if the dot is under a
// code. This allocates no memory.
pub(crate) fn wake(
    facts: &FactStore,
    revocations: &BTreeSet<Revocation>,
    outs: &BTreeSet<OutKey>,
    reuses: &BTreeSet<ReuseKey>,
    forest: &mut Forest,
    at: Dot,
)
    requires revocations { IsRevocations (held_facts facts.now) revocations.now }
    requires outs { IsOuts (held_facts facts.now) outs.now }
    requires reuses { IsReuses (held_facts facts.now) reuses.now }
    requires links { (q : the_dot)
        → map.get forest.old.links q ≡ spec.links_in (map.get (held_facts facts.now)) q }
    ensures { Wakes (held_facts facts.now) forest.old (λ q. dot_eq q at) forest.new }
{
    if code_above(forest, at).is_some() {
        let grant = TokenId {
            dot: at,
            kind: grant_kind(issued_at(facts, at)),
        };
        write_mark(facts, revocations, outs, reuses, forest, grant);
    }
}

// Writes the marks at each dot of a list.
pub(crate) fn wake_all(
    facts: &FactStore,
    revocations: &BTreeSet<Revocation>,
    outs: &BTreeSet<OutKey>,
    reuses: &BTreeSet<ReuseKey>,
    forest: &mut Forest,
    dots: &[Dot],
)
    requires revocations { IsRevocations (held_facts facts.now) revocations.now }
    requires outs { IsOuts (held_facts facts.now) outs.now }
    requires reuses { IsReuses (held_facts facts.now) reuses.now }
    requires links { (q : the_dot)
        → map.get forest.old.links q ≡ spec.links_in (map.get (held_facts facts.now)) q }
    ensures { Wakes (held_facts facts.now) forest.old (has dots.now) forest.new }
{
    for at in dots {
        wake(facts, revocations, outs, reuses, forest, *at);
    }
}

// Writes the marks at the codes under the prefix of a subject's digest that start in the seconds
// from `first` to `last`, and looks at no other key.
fn wake_codes(
    facts: &FactStore,
    revocations: &BTreeSet<Revocation>,
    codes: &BTreeSet<CodeKey>,
    outs: &BTreeSet<OutKey>,
    reuses: &BTreeSet<ReuseKey>,
    forest: &mut Forest,
    prefix: u64,
    first: u64,
    last: u64,
)
    requires forward { first ≤ last }
    requires revocations { IsRevocations (held_facts facts.now) revocations.now }
    requires outs { IsOuts (held_facts facts.now) outs.now }
    requires reuses { IsReuses (held_facts facts.now) reuses.now }
    requires links { (q : the_dot)
        → map.get forest.old.links q ≡ spec.links_in (map.get (held_facts facts.now)) q }
    ensures { Wakes (held_facts facts.now) forest.old
        (has (dots_of (codes_started codes.now prefix first last))) forest.new }
{
    let (first, last) = code_span(prefix, first, last);
    for key in codes.range((Bound::Included(first), Bound::Included(last))) {
        wake(facts, revocations, outs, reuses, forest, key.code);
    }
}

// Writes the marks at the codes under the prefix of a subject's digest that start in the seconds
// from `first` to `last`. If `first` is later than `last`, no code is looked at.
pub(crate) fn wake_started(
    facts: &FactStore,
    revocations: &BTreeSet<Revocation>,
    codes: &BTreeSet<CodeKey>,
    outs: &BTreeSet<OutKey>,
    reuses: &BTreeSet<ReuseKey>,
    forest: &mut Forest,
    prefix: u64,
    first: u64,
    last: u64,
)
    requires revocations { IsRevocations (held_facts facts.now) revocations.now }
    requires outs { IsOuts (held_facts facts.now) outs.now }
    requires reuses { IsReuses (held_facts facts.now) reuses.now }
    requires links { (q : the_dot)
        → map.get forest.old.links q ≡ spec.links_in (map.get (held_facts facts.now)) q }
    ensures { Wakes (held_facts facts.now) forest.old
        (λ q. nat_le first last && has (dots_of (codes_started codes.now prefix first last)) q)
        forest.new }
{
    if first <= last {
        wake_codes(
            facts,
            revocations,
            codes,
            outs,
            reuses,
            forest,
            prefix,
            first,
            last,
        );
    }
}
