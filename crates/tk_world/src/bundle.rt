//! A bundle that a region made: `MadeBundle`, kept as bytes and seen as its horizon and items.
//! `pull_page` makes one of a page.

use std::marker::Model;

/// A bundle that a region made, in bytes. Contracts see its horizon and items.
#[derive(Drop)]
pub struct MadeBundle {
    bytes: Vec<u8>,
}

impl Model for MadeBundle {
    ghost use Rattle.tk_bundle.specs.BundleFields.{BundleFields};
    ghost use Rattle.tk_world.specs.Bundles.{bundle_in_bytes, IsReadable};
    ghost use Rattle.tk_world.specs.WorldFields.{coded_bundle};

    ghost Value = { BundleFields };

    ghost coded = { coded_bundle };

    ghost view = { λ b. bundle_in_bytes b.bytes.items };

    ghost invariant = { λ b. IsReadable b.bytes.items };
}

ghost use Rattle.std.specs.Prelude.{◌≡◌, Some};
ghost use Rattle.tk_format.specs.Format.{whole};
ghost use Rattle.tk_bundle.specs.Bundle.{bundle, bundle_bytes};
ghost use Rattle.tk_bundle.specs.BundleFields.{BundleFields};
ghost use Rattle.tk_bundle.specs.Page as pages;
ghost use Rattle.tk_bundle.specs.Page.{IsPageOf};
ghost use Rattle.tk_world.specs.Bundles.{bundle_in_bytes, IsReadable};
ghost use Rattle.tk_world.specs.Parts.{Pages};

use crate::event::Outcome;
use std::alloc::Global;
use tk_bundle::Page;
use tk_handle::Dot;
use tk_region::Region;
use tk_vector::VersionVector;

impl MadeBundle {
    // Wraps bytes that spell a bundle.
    pub(crate) fn new(bytes: Vec<u8>) -> MadeBundle
        requires { (b : BundleFields) × bundle.Fits b × (bytes.items ≡ bundle_bytes b) }
        ensures { (b : BundleFields) → bundle.Fits b → bytes.items ≡ bundle_bytes b
            → result ≡ b }
    {
        MadeBundle { bytes }
    }

    // Returns the bundle's bytes.
    pub(crate) fn bytes(&self) -> &[u8]
        ensures spelled { result.now ≡ bundle_bytes self.now }
        ensures read { whole bundle result.now ≡ Some self.now }
    {
        spelling(&self.bytes)
    }
}

// Returns the bytes unchanged; its contract states that they spell the bundle.
fn spelling(bytes: &[u8]) -> &[u8]
    requires { IsReadable bytes.now }
    ensures spelled { result.now ≡ bundle_bytes (bundle_in_bytes bytes.now) }
    ensures read { whole bundle result.now ≡ Some (bundle_in_bytes bytes.now) }
{
    bytes
}

// Adds the bundle of the region's page to the others.
pub(crate) fn pull_page(
    alloc: Global,
    region: &Region,
    bundles: &mut Vec<MadeBundle>,
    vector: &VersionVector,
    after: Option<Dot>,
) -> Outcome
    ensures { Pages (pages.page_of region.now.facts vector.now after) bundles.old.items result
        bundles.new.items }
{
    match region.page(alloc, vector, after) {
        Ok(page) => keep_page(bundles, page),
        Err(_) => Outcome::Memory,
    }
}

// Adds the bundle of a page, and returns its outcome.
fn keep_page(bundles: &mut Vec<MadeBundle>, page: Page) -> Outcome
    requires { (fields : pages.PageFields) × IsPageOf page fields × bundle.Fits fields.bundle }
    ensures { (fields : pages.PageFields) → IsPageOf page fields → bundle.Fits fields.bundle
        → Pages fields bundles.old.items result bundles.new.items }
{
    let made = Outcome::Bundle {
        index: bundles.len() as u64,
        count: page.count,
        last: page.last,
        more: page.more,
    };
    match bundles.push(MadeBundle::new(page.bytes)) {
        Ok(()) => made,
        Err(_) => Outcome::Memory,
    }
}
