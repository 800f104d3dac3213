//! The facts of families that are over, which may be skipped.

ghost use Rattle.std.specs.Prelude.{◌≡◌, ◌++◌, true, IfOk, OnOk};
ghost use Rattle.std.specs.FinMap as map;
ghost use Rattle.tk_handle.specs.declared.dot.Dot.{Dot as the_dot};
ghost use Rattle.tk_family.specs.Dots.{has};
ghost use Rattle.tk_store.specs.StoreFields.{held_facts};
ghost use Rattle.tk_ledger.specs.Retention as spec;
ghost use Rattle.tk_ledger.specs.Tokens.{links_in};

use crate::looks::{issued_in, root_above};
use crate::root::Root;
use std::alloc::{AllocError, Global};
use tk_fact::{Body, Fact};
use tk_family::Forest;
use tk_handle::{Dot, Moment, TokenId};
use tk_store::FactStore;

// Returns whether there is a root, and its family is over at the horizon.
fn is_over_by(horizon: Moment, root: &Option<Root<'_>>) -> bool
    ensures { result ≡ spec.is_over_by horizon root.now }
{
    match root {
        Some(root) => root.issued.family_end.seconds() <= horizon.seconds(),
        None => false,
    }
}

// Returns whether a fact with the body mints a token.
fn mints(body: &Body) -> bool
    ensures { result ≡ spec.mints body.now }
{
    match body {
        Body::CodeIssued(_)
        | Body::CodeRedeemed(_)
        | Body::RefreshRotated(_)
        | Body::AccessRefreshed(_) => true,
        _ => false,
    }
}

// Returns whether a fact is at the dot, and mints no token.
fn mints_nothing(facts: &FactStore, dot: Dot) -> bool
    ensures { result ≡ spec.mints_nothing (map.get (held_facts facts.now) dot) }
{
    match facts.get(dot) {
        Some(fact) => !mints(&fact.body),
        None => false,
    }
}

// Returns whether the token is of a family that is over at the horizon, or can't come any more.
fn is_over(facts: &FactStore, forest: &Forest, horizon: Moment, token: &TokenId) -> bool
    requires links { (q : the_dot)
        → map.get forest.now.links q ≡ links_in (map.get (held_facts facts.now)) q }
    ensures { result ≡ spec.is_over (held_facts facts.now) horizon token.now }
{
    mints_nothing(facts, token.dot) || is_over_by(horizon, &root_above(facts, forest, token.dot))
}

// Returns whether the fact is kept for a token of a family that is over at the horizon, or for one
// that can't come any more.
pub(crate) fn may_skip(facts: &FactStore, forest: &Forest, horizon: Moment, fact: &Fact) -> bool
    requires links { (q : the_dot)
        → map.get forest.now.links q ≡ links_in (map.get (held_facts facts.now)) q }
    ensures { result ≡ spec.may_skip (held_facts facts.now) horizon fact.now }
{
    match fact.kept_for() {
        Some(token) => is_over(facts, forest, horizon, &token),
        None => false,
    }
}

// Adds the dots of the codes that may be skipped to a list.
fn list_codes(
    facts: &FactStore,
    forest: &Forest,
    horizon: Moment,
    list: &mut Vec<Dot>,
) -> Result<(), AllocError>
    requires links { (q : the_dot)
        → map.get forest.now.links q ≡ links_in (map.get (held_facts facts.now)) q }
    ensures { OnOk result (list.new.items ≡ list.old.items
        ++ spec.picked (spec.picks_code (held_facts facts.now) horizon)
        (map.entries (held_facts facts.now))) }
{
    for fact in facts.facts() {
        if issued_in(&fact.body).is_some() && may_skip(facts, forest, horizon, fact) {
            if list.push(fact.dot).is_err() {
                return Err(AllocError);
            }
        }
    }
    Ok(())
}

// Adds the dots of the other facts that may be skipped to a list.
fn list_others(
    facts: &FactStore,
    forest: &Forest,
    horizon: Moment,
    list: &mut Vec<Dot>,
) -> Result<(), AllocError>
    requires links { (q : the_dot)
        → map.get forest.now.links q ≡ links_in (map.get (held_facts facts.now)) q }
    ensures { OnOk result (list.new.items ≡ list.old.items
        ++ spec.picked (spec.picks_other (held_facts facts.now) horizon)
        (map.entries (held_facts facts.now))) }
{
    for fact in facts.facts() {
        if issued_in(&fact.body).is_none() && may_skip(facts, forest, horizon, fact) {
            if list.push(fact.dot).is_err() {
                return Err(AllocError);
            }
        }
    }
    Ok(())
}

// Returns the dots of all facts that may be skipped, those of codes first: once a code is skipped,
// the loss of what was under it costs the least.
pub(crate) fn dots_over(
    alloc: Global,
    facts: &FactStore,
    forest: &Forest,
    horizon: Moment,
) -> Result<Vec<Dot>, AllocError>
    requires links { (q : the_dot)
        → map.get forest.now.links q ≡ links_in (map.get (held_facts facts.now)) q }
    ensures value { IfOk result (λ dots.
        dots.items ≡ spec.dots_over (held_facts facts.now) horizon) }
    ensures over { IfOk result (λ dots. (q : the_dot) → has dots.items q ≡ true
        → spec.MaySkip (map.get (held_facts facts.now)) horizon q) }
    ensures all { IfOk result (λ dots. (q : the_dot)
        → spec.MaySkip (map.get (held_facts facts.now)) horizon q → has dots.items q ≡ true) }
{
    let mut list: Vec<Dot> = Vec::new(alloc);
    list_codes(facts, forest, horizon, &mut list)?;
    list_others(facts, forest, horizon, &mut list)?;
    Ok(list)
}
