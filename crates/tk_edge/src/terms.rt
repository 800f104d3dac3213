//! The terms of an edge: which pushed bundles it refuses, whatever its region would do with them,
//! and which notices of itself it gives.

use crate::issuer::Issuer;
use std::marker::Model;

/// The region numbers from `first` to `last`, both included (own). There is no such number if
/// `first` is greater than `last`.
#[derive(Clone, Copy)]
pub struct RegionRange {
    /// The lowest number.
    pub first: u16,
    /// The greatest number.
    pub last: u16,
}

/// The terms of an edge: which pushed bundles it refuses, and which notices of itself it gives
/// (own).
///
/// Contracts see `accepted` as the list of its ranges, and `metrics` as its bytes.
#[derive(Drop)]
pub struct Terms {
    /// Whether a bundle is refused if its horizon is later than the moment of the request.
    pub refuses_ahead: bool,
    /// The numbers under which a bundle may have facts and marks. No range: all numbers.
    pub accepted: Vec<RegionRange>,
    /// Numbers that are not accepted, even if a range of `accepted` has them.
    pub barred: Option<RegionRange>,
    /// The issuer that metadata and redirects name. `None`: neither metadata nor a name is given.
    pub issuer: Option<Issuer>,
    /// Whether GET /health is answered.
    pub health: bool,
    /// The text that GET /metrics shows. `None`: its path is unknown.
    pub metrics: Option<Vec<u8>>,
}

impl Model for Terms {
    ghost use Rattle.std.specs.Option.{option_map};
    ghost use Rattle.tk_edge.specs.Terms.{TermsFields, coded_terms};

    ghost Value = { TermsFields };

    ghost coded = { coded_terms };

    ghost view = { λ t. record {
      refuses_ahead = t.refuses_ahead;
      accepted = t.accepted.items;
      barred = t.barred;
      issuer = t.issuer;
      health = t.health;
      metrics = option_map (λ v. v.items) t.metrics;
    } };
}

ghost use Rattle.std.specs.Prelude.{◌≡◌};
ghost use Rattle.std.specs.List.{list_any};
ghost use Rattle.tk_edge.specs.Terms as spec;

use std::alloc::Global;
use tk_bundle::{Bundle, Item};

impl Terms {
    /// Returns the terms that refuse no bundle and give no notice.
    pub fn accept_all(alloc: Global) -> Terms
        ensures { result ≡ spec.accept_all }
    {
        Terms {
            refuses_ahead: false,
            accepted: Vec::new(alloc),
            barred: None,
            issuer: None,
            health: false,
            metrics: None,
        }
    }

    /// Returns whether a bundle may have facts and marks under this number.
    pub(crate) fn is_accepted(&self, number: u16) -> bool
        ensures { result ≡ spec.is_accepted self.now number }
    {
        is_listed(&self.accepted, number) && !is_barred(self.barred, number)
    }
}

// Returns whether an item of a bundle is under a number that isn't accepted.
pub(crate) fn is_out_of_range(terms: &Terms, sent: &Bundle) -> bool
    ensures { result ≡ spec.is_out_of_range terms.now sent.now }
{
    has_outside(terms, sent.items())
}

// Returns whether one of the items is under a number that isn't accepted.
fn has_outside(terms: &Terms, items: &[Item]) -> bool
    ensures { result ≡ spec.has_outside terms.now items.now }
{
    items
        .iter()
        .any(|item| !terms.is_accepted(item.dot().region().number()))
}

// Returns whether a range has the number, or there is no range.
fn is_listed(ranges: &[RegionRange], number: u16) -> bool
    ensures { result ≡ spec.is_listed ranges.now number }
{
    ranges.is_empty() || has_number(ranges, number)
}

// Returns whether one of the ranges has the number.
fn has_number(ranges: &[RegionRange], number: u16) -> bool
    ensures { result ≡ list_any (spec.is_within number) ranges.now }
{
    ranges.iter().any(|range| is_within(number, *range))
}

// Returns whether the range, if there is one, has the number.
fn is_barred(range: Option<RegionRange>, number: u16) -> bool
    ensures { result ≡ spec.is_barred range number }
{
    match range {
        Some(range) => is_within(number, range),
        None => false,
    }
}

// Returns whether the range has the number.
fn is_within(number: u16, range: RegionRange) -> bool
    ensures { result ≡ spec.is_within number range }
{
    range.first <= number && number <= range.last
}
