//! Look-ups among the facts and in the forest.

ghost use Rattle.std.specs.Prelude.{◌≡◌};
ghost use Rattle.std.specs.FinMap as map;
ghost use Rattle.std.specs.Option.{option_copied, option_map};
ghost use Rattle.tk_fact.specs.Tokens.{shown_minted};
ghost use Rattle.tk_family.specs.ForestFacts.{links_at};
ghost use Rattle.tk_family.specs.Walks.{code_of};
ghost use Rattle.tk_store.specs.StoreFields.{held_facts};
ghost use Rattle.tk_ledger.specs.ByTop.{code_in_top, root_by};
ghost use Rattle.tk_ledger.specs.Tokens as spec;

use crate::root::Root;
use tk_fact::{Body, CodeIssued, Minted};
use tk_family::{Forest, Steps, Top};
use tk_handle::{Dot, TokenId};
use tk_store::FactStore;

// Returns the fact that a code was issued, if the body is one.
pub(crate) fn issued_in(body: &Body) -> Option<&CodeIssued>
    ensures { option_copied result ≡ spec.issued_in body.now }
{
    match body {
        Body::CodeIssued(fact) => Some(fact),
        _ => None,
    }
}

// Returns the fact that issued the code at the dot.
pub(crate) fn issued_at(facts: &FactStore, code: Dot) -> Option<&CodeIssued>
    ensures { option_copied result ≡ spec.issued_at (map.get (held_facts facts.now)) code }
{
    match facts.get(code) {
        Some(fact) => issued_in(&fact.body),
        None => None,
    }
}

// Returns the root with the code at the dot, if a code was issued there.
pub(crate) fn root_of(facts: &FactStore, code: Dot) -> Option<Root<'_>>
    ensures { result ≡ spec.root_of (map.get (held_facts facts.now)) code }
{
    match issued_at(facts, code) {
        Some(issued) => Some(Root { code, issued }),
        None => None,
    }
}

// Returns the code of a top, if there is one.
fn code_of_top(top: Top) -> Option<Dot>
    ensures { result ≡ code_in_top top }
{
    match top {
        Top::Absent => None,
        Top::Broken => None,
        Top::Code(code) => Some(code),
        Top::Dead(code) => Some(code),
    }
}

// Returns the code that the dot is under.
pub(crate) fn code_above(forest: &Forest, dot: Dot) -> Option<Dot>
    ensures { result ≡ code_of (links_at forest.now) dot }
{
    code_of_top(forest.top(dot, &mut Steps::new()))
}

// Returns the dot by which the tokens minted at a dot are in a family.
pub(crate) fn anchor_at(facts: &FactStore, dot: Dot) -> Dot
    ensures { result ≡ spec.anchor_in (map.get (held_facts facts.now)) dot }
{
    match facts.get(dot) {
        Some(fact) => fact.anchor(),
        None => dot,
    }
}

// Returns the root of the family of the tokens minted at the dot.
pub(crate) fn root_above<'a>(facts: &'a FactStore, forest: &Forest, dot: Dot) -> Option<Root<'a>>
    ensures { result ≡ root_by (map.get (held_facts facts.now)) (code_of (links_at forest.now)
        (spec.anchor_in (map.get (held_facts facts.now)) dot)) }
{
    match code_above(forest, anchor_at(facts, dot)) {
        Some(code) => root_of(facts, code),
        None => None,
    }
}

// Returns what the fact at the token's dot mints of the token's kind.
pub(crate) fn minted_at<'a>(facts: &'a FactStore, token: &TokenId) -> Option<Minted<'a>>
    ensures { option_map shown_minted result ≡ spec.minted_in (map.get (held_facts facts.now))
        token.now }
{
    match facts.get(token.dot) {
        Some(fact) => fact.minted(token.kind),
        None => None,
    }
}
