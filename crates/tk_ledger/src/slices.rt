//! Pruning in slices: some facts at a time, between requests.

ghost use Rattle.std.specs.Prelude.{◌≡◌, ◌↔◌, Some, IsTrue};
ghost use Rattle.std.specs.FinMap as map;
ghost use Rattle.tk_handle.specs.declared.dot.Dot.{Dot as the_dot};
ghost use Rattle.tk_fact.specs.Keeping.{names_of};
ghost use Rattle.tk_store.specs.StoreFields.{held_facts};
ghost use Rattle.tk_ledger.specs.Index.{IsIndexed};
ghost use Rattle.tk_ledger.specs.Slices.{Goes, LooksOver, PrunesSome, SkipsIf, is_any_skipped};
ghost use Rattle.tk_ledger.specs.Tokens.{links_in};

use crate::index::Index;
use crate::ledger::Ledger;
use crate::prune::skip_at;
use crate::retention::may_skip;
use tk_fact::{Body, Fact};
use tk_family::Forest;
use tk_handle::{Dot, Moment};
use tk_store::FactStore;

/// What one slice of a prune did.
#[derive(Clone, Copy)]
pub struct Slice {
    /// The cursor of the next slice: the dot of the last fact that was looked at. `None` ends a
    /// pass: fewer facts than the given number were above the cursor.
    pub at: Option<Dot>,
    /// The number of facts that went, at most the number that were looked at.
    pub gone: u64,
}

// Returns the dot that a fact with the body names, if the fact is of a kind that may be skipped.
fn named(body: &Body) -> Option<Dot>
    ensures { result ≡ names_of body.now }
{
    match body {
        Body::CodeRedeemed(fact) => Some(fact.code),
        Body::RefreshRotated(fact) => Some(fact.parent),
        Body::TokenRevoked(fact) => Some(fact.token.dot),
        Body::ReuseSeen(fact) => Some(fact.token.dot),
        Body::AccessRefreshed(fact) => Some(fact.parent),
        _ => None,
    }
}

// Returns whether a fact of the store names a skipped dot.
fn names_skipped(facts: &FactStore, fact: &Fact) -> bool
    ensures { result ≡ is_any_skipped facts.now.slots (names_of fact.now.1) }
{
    match named(&fact.body) {
        Some(dot) => facts.skipped(dot),
        None => false,
    }
}

// Returns whether a fact of the store may go.
fn goes(facts: &FactStore, forest: &Forest, fact: &Fact) -> bool
    requires links { (q : the_dot)
        → map.get forest.now.links q ≡ links_in (map.get (held_facts facts.now)) q }
    requires held { map.get (held_facts facts.now) fact.now.0 ≡ Some fact.now.1 }
    ensures { IsTrue result ↔ Goes facts.now fact.now.0 }
{
    names_skipped(facts, fact) || may_skip(facts, forest, facts.horizon(), fact)
}

// Skips the fact at the dot if it may go. Returns whether the fact went.
fn skip_if_it_goes(store: &mut FactStore, index: &mut Index, dot: Dot) -> bool
    requires { IsIndexed (held_facts store.old) index.old }
    ensures skips { SkipsIf store.old dot result store.new }
    ensures indexed { IsIndexed (held_facts store.new) index.new }
{
    let may = match store.get(dot) {
        Some(fact) => goes(store, &index.forest, fact),
        None => false,
    };
    if !may {
        return false;
    }
    match skip_at(store, index, dot) {
        Ok(_) => true,
        Err(_) => unreachable!("the fact that may go is held, and does not last"),
    }
}

// Looks at the given number of facts above a cursor, and skips those that may go.
fn look_on(store: &mut FactStore, index: &mut Index, after: Option<Dot>, count: u64) -> Slice
    requires { IsIndexed (held_facts store.old) index.old }
    ensures looks { LooksOver store.old after count result store.new }
    ensures indexed { IsIndexed (held_facts store.new) index.new }
{
    let mut at = after;
    let mut gone = 0;
    for _turn in 0..count {
        let dot = match store.next_after(at) {
            Some(fact) => fact.dot,
            None => return Slice { at: None, gone },
        };
        if skip_if_it_goes(store, index, dot) {
            gone += 1;
        }
        at = Some(dot);
    }
    Slice { at, gone }
}

impl Ledger {
    /// Raises the horizon to the moment, looks at `count` facts above the cursor `after`, or from
    /// the least dot on if it is `None`, and skips each that may go: a fact that is kept for a
    /// token of a family that is over by then, and a fact that names a skipped dot.
    ///
    /// A pass goes over all facts: its first slice starts at `None`, and each further one at the
    /// cursor that the one before returned, until one returns `None`. A pass in which no fact went
    /// leaves none that may go. A `count` of 0 looks at nothing and returns the cursor.
    ///
    /// With n known dots, costs O(log n) for each fact that is looked at, and O(log n) for each dot
    /// under a code that goes. Takes no memory, and can't fail.
    pub fn prune_some(&mut self, moment: Moment, after: Option<Dot>, count: u64) -> Slice
        ensures { PrunesSome self.old moment after count result self.new }
    {
        self.store.raise_horizon(moment);
        look_on(&mut self.store, &mut self.index, after, count)
    }
}
