//! Pages: what a store knows and a vector does not cover, as bundles.

use tk_handle::Dot;

/// The reply to a pull: a bundle, and whether more items follow.
#[derive(Drop)]
pub struct Page {
    /// The bundle's bytes.
    pub bytes: Vec<u8>,
    /// The number of items in the bundle: 0 to 128, or with runs 0 to 1,024.
    pub count: u16,
    /// The dot of the bundle's last item, which is the cursor of the next page.
    pub last: Option<Dot>,
    /// Whether the store has more items for the vector, above the last.
    pub more: bool,
}

ghost use Rattle.std.specs.Prelude.{◌≡◌, ◌≤◌, ◌++◌, ◌∷◌, [], IfOk, OnOk, None, length};
ghost use Rattle.std.specs.Int.{w16};
ghost use Rattle.std.specs.List.{AllByRecursion, flat_map, list_any};
ghost use Rattle.tk_format.specs.Format.{number};
ghost use Rattle.tk_handle.specs.Moment.{moment};
ghost use Rattle.tk_fact.specs.Check.{refusal_of};
ghost use Rattle.tk_store.specs.Slots.{is_skipped};
ghost use Rattle.tk_bundle.specs.Bundle.{magic, max_items, bundle, bundle_bytes, horizon_bytes};
ghost use Rattle.tk_bundle.specs.BundleFields.{is_mark, of_facts};
ghost use Rattle.tk_bundle.specs.Items.{item, mark_at};
ghost use Rattle.tk_bundle.specs.Page as spec;
ghost use Rattle.tk_bundle.specs.Versions.{newest_kind};

use crate::bundle::{MAGIC, MAX_ITEMS};
use crate::item::DOT_BYTES;
use crate::version::{kind_in, kind_of, version_with};
use std::alloc::{AllocError, Global};
use tk_fact::Fact;
use tk_format::Writer;
use tk_handle::Moment;
use tk_store::{FactStore, SlotRef};
use tk_vector::VersionVector;

/// Makes the page of a store for a vector: the first 128 facts and marks above the cursor `after`
/// that the vector does not cover. A page with a mark has the store's horizon.
///
/// If more follow, the next page is the one with the last dot as its cursor. Dots that the vector
/// covers are passed over without a walk. Returns an error, and no part of a page, if memory runs
/// out.
pub fn make(
    alloc: Global,
    store: &FactStore,
    vector: &VersionVector,
    after: Option<Dot>,
) -> Result<Page, AllocError>
    ensures page { IfOk result (λ page.
        spec.IsPageOf page (spec.page_of store.now vector.now after)) }

    // A page can be read.
    ensures fits { OnOk result (bundle.Fits (spec.page_of store.now vector.now after).bundle) }
{
    page_within(alloc, store, vector, after, MAX_ITEMS as usize)
}

// Makes a page of at most `limit` items. One dot more than that is sought, to see whether more
// follow.
fn page_within(
    alloc: Global,
    store: &FactStore,
    vector: &VersionVector,
    after: Option<Dot>,
    limit: usize,
) -> Result<Page, AllocError>
    requires { limit ≤ max_items }
    ensures page { IfOk result (λ page.
        spec.IsPageOf page (spec.page_within limit store.now vector.now after)) }
    ensures fits { OnOk result (bundle.Fits (spec.page_within limit store.now vector.now
        after).bundle) }
{
    let mut dots = store.since(alloc, vector, after, limit + 1)?;
    let more = dots.as_slice().len() > limit;
    dots.truncate(limit);
    page_at(alloc, store, &dots, more)
}

// Makes the page of what the store knows of the dots.
pub(crate) fn page_at(
    alloc: Global,
    store: &FactStore,
    dots: &[Dot],
    more: bool,
) -> Result<Page, AllocError>
    requires { length dots.now ≤ max_items }
    ensures page { IfOk result (λ page. spec.IsPageAt page store.now dots.now more) }
    ensures fits { OnOk result (AllByRecursion item.Fits
        (spec.items_at store.now.slots dots.now)) }
    ensures horizon { moment.Fits store.now.horizon }
{
    let marked = has_mark(store, dots);
    let version = version_with(newest_at(store, dots), marked, false);
    let horizon = horizon_with(marked, store.horizon());
    store.horizon().known();
    let count = dots.len() as u16;
    let mut writer = begin_bundle(alloc, version, horizon, count)?;
    write_items(alloc, store, dots, &mut writer)?;
    Ok(Page {
        bytes: writer.into_bytes(),
        count,
        last: last_of(dots),
        more,
    })
}

// Returns whether a mark is among what the store knows of the dots.
fn has_mark(store: &FactStore, dots: &[Dot]) -> bool
    ensures { result ≡ list_any is_mark (spec.items_at store.now.slots dots.now) }
{
    has_skipped(store, dots)
}

// Returns whether one of the dots is skipped.
fn has_skipped(store: &FactStore, dots: &[Dot]) -> bool
    ensures { result ≡ list_any (is_skipped store.now.slots) dots.now }
{
    dots.iter().any(|dot| store.skipped(*dot))
}

// Returns the newest kind of what the store knows of the dots.
pub(crate) fn newest_at(store: &FactStore, dots: &[Dot]) -> u8
    ensures { result ≡ newest_kind 0 (spec.items_at store.now.slots dots.now) }
{
    let mut newest = 0;
    for dot in dots {
        newest = newest_with(newest, store, *dot);
    }
    newest
}

// Returns the greater of a kind and that of what the store knows of the dot, if it knows anything.
fn newest_with(last: u8, store: &FactStore, dot: Dot) -> u8
    ensures { result ≡ newest_kind last (spec.items_at store.now.slots (dot ∷ [])) }
{
    match store.slot(dot) {
        Some(slot) => last.max(kind_in(&slot)),
        None => last,
    }
}

// Returns the horizon if a mark is among the items.
fn horizon_with(marked: bool, horizon: Moment) -> Option<Moment>
    ensures { result ≡ spec.horizon_if marked horizon }
{
    if marked { Some(horizon) } else { None }
}

// Begins a bundle of `count` items: the magic, the digit of the version, the horizon if there is
// one, the count.
pub(crate) fn begin_bundle(
    alloc: Global,
    version: u8,
    horizon: Option<Moment>,
    count: u16,
) -> Result<Writer, AllocError>
    ensures { IfOk result (λ writer. writer
        ≡ magic ++ (version ∷ horizon_bytes horizon ++ (number w16).spell count)) }
{
    let mut writer = Writer::new(alloc);
    writer.put_bytes(MAGIC)?;
    writer.put_u8(version)?;
    if let Some(horizon) = horizon {
        horizon.write(&mut writer)?;
    }
    writer.put_u16(count)?;
    Ok(writer)
}

// Returns the last of the dots, if there is one.
pub(crate) fn last_of(dots: &[Dot]) -> Option<Dot>
    ensures { result ≡ spec.last_of dots.now }
{
    match dots.last() {
        Some(dot) => Some(*dot),
        None => None,
    }
}

// Writes what the store knows of the dots.
fn write_items(
    alloc: Global,
    store: &FactStore,
    dots: &[Dot],
    writer: &mut Writer,
) -> Result<(), AllocError>
    ensures written { OnOk result (writer.new ≡ writer.old ++ flat_map item.spell
        (spec.items_at store.now.slots dots.now)) }
    ensures fits { OnOk result (AllByRecursion item.Fits
        (spec.items_at store.now.slots dots.now)) }
{
    for dot in dots {
        write_item(alloc, store, *dot, writer)?;
    }
    Ok(())
}

// Writes the fact at the dot or its mark, if the store knows the dot.
fn write_item(
    alloc: Global,
    store: &FactStore,
    dot: Dot,
    writer: &mut Writer,
) -> Result<(), AllocError>
    ensures written { OnOk result (writer.new ≡ writer.old ++ flat_map item.spell
        (spec.items_at store.now.slots (dot ∷ []))) }
    ensures fits { OnOk result (AllByRecursion item.Fits
        (spec.items_at store.now.slots (dot ∷ []))) }
{
    store.known();
    match store.slot(dot) {
        Some(SlotRef::Held(fact)) => {
            fact.known();
            fact.write_framed(alloc, writer)?;
            Ok(())
        }
        Some(SlotRef::Skipped) => write_mark(dot, writer),
        None => Ok(()),
    }
}

// Writes the mark of a dot: the length of a dot, and the dot.
pub(crate) fn write_mark(dot: Dot, writer: &mut Writer) -> Result<(), AllocError>
    ensures written { OnOk result (writer.new ≡ writer.old ++ item.spell (mark_at dot)) }
    ensures fits { item.Fits (mark_at dot) }
{
    dot.known();
    writer.put_u16(DOT_BYTES)?;
    dot.write(writer)
}

/// Writes the bundle of one fact that passes its check (`Fact::check`): a record of a log. Returns
/// an error, and no part of a record, if memory runs out.
pub fn single(alloc: Global, fact: &Fact) -> Result<Vec<u8>, AllocError>
    requires { refusal_of fact.now.1 ≡ None }
    ensures spelled { IfOk result (λ bytes. bytes.items ≡ bundle_bytes (of_facts
        (fact.now ∷ []))) }

    // A record can be read.
    ensures fits { bundle.Fits (of_facts (fact.now ∷ [])) }
{
    fact.known();
    let version = version_with(kind_of(&fact.body), false, false);
    let mut writer = begin_bundle(alloc, version, None, 1)?;
    fact.write_framed(alloc, &mut writer)?;
    Ok(writer.into_bytes())
}
