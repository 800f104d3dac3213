//! What a bundle changes of a store, and the record of that in a log: `news`.

ghost use Rattle.std.specs.Prelude.{◌≡◌, ◌≤◌, ◌++◌, ◌∷◌, filter, length, IfOk, OnOk};
ghost use Rattle.std.specs.FinMap as map;
ghost use Rattle.std.specs.Int.{w16};
ghost use Rattle.std.specs.List.{AllByRecursion, flat_map};
ghost use Rattle.std.specs.Option.{option_map};
ghost use Rattle.tk_format.specs.Format.{number};
ghost use Rattle.tk_bundle.specs.Bundle.{bundle, bundle_bytes, horizon_bytes, magic, max_items};
ghost use Rattle.tk_bundle.specs.Items.{item};
ghost use Rattle.tk_bundle.specs.News as spec;
ghost use Rattle.tk_bundle.specs.PieceBytes.{max_run_items};
ghost use Rattle.tk_bundle.specs.Pieces.{grouped};
ghost use Rattle.tk_bundle.specs.RunPage.{pieces_bytes};
ghost use Rattle.tk_bundle.specs.Versions.{newest_kind, version_of};

use crate::bundle::Bundle;
use crate::item::{Item, is_mark};
use crate::kept_pieces::{count_pieces, write_pieces};
use crate::page::{begin_bundle, write_mark};
use crate::version::{kind_in, version_with};
use std::alloc::{AllocError, Global};
use tk_format::Writer;
use tk_handle::Moment;
use tk_store::{FactStore, SlotRef};

/// Returns the record of a bundle in the log of a store that is about to take the bundle in: the
/// bundle without the facts at skipped dots, which the store drops. Returns `None` if the bundle
/// changes nothing: it raises no horizon, has no unknown dot, and no mark of a fact that is held.
/// Returns an error, and no part of a record, if memory runs out.
///
/// Each bundle that [`Bundle::read`] or `read_front` returned has the spelling that is required.
pub fn news(alloc: Global, store: &FactStore, sent: &Bundle) -> Result<Option<Vec<u8>>, AllocError>
    requires { bundle.Fits sent.now }
    ensures news { IfOk result (λ news. option_map (λ bytes. bytes.items) news
        ≡ spec.record_of store.now sent.now) }

    // A record can be read.
    ensures fits { bundle.Fits (spec.news_of store.now.slots sent.now) }
{
    if !changes(store, sent) {
        return Ok(None);
    }
    let bytes = record_of(alloc, store, sent)?;
    Ok(Some(bytes))
}

// Writes the bundle without the facts at skipped dots.
fn record_of(alloc: Global, store: &FactStore, sent: &Bundle) -> Result<Vec<u8>, AllocError>
    requires { bundle.Fits sent.now }
    ensures { IfOk result (λ bytes. bytes.items
        ≡ bundle_bytes (spec.news_of store.now.slots sent.now)) }
{
    let version = version_kept(store, sent);
    if sent.has_runs() {
        return runs_record(alloc, store, version, sent);
    }
    record(alloc, store, version, sent)
}

// Writes the record of a bundle without runs.
fn record(
    alloc: Global,
    store: &FactStore,
    version: u8,
    sent: &Bundle,
) -> Result<Vec<u8>, AllocError>
    requires few { length sent.now.items ≤ max_items }
    requires fits { AllByRecursion item.Fits sent.now.items }
    ensures { let kept = filter (spec.counts store.now.slots) sent.now.items in
        IfOk result (λ bytes. bytes.items ≡ magic ++ (version ∷ horizon_bytes sent.now.horizon
        ++ ((number w16).spell (length kept) ++ flat_map item.spell kept))) }
{
    let items = sent.items();
    let mut writer = begin_bundle(alloc, version, sent.horizon(), count_kept(store, items))?;
    write_kept(alloc, store, items, &mut writer)?;
    Ok(writer.into_bytes())
}

// Writes the record of a bundle with runs.
fn runs_record(
    alloc: Global,
    store: &FactStore,
    version: u8,
    sent: &Bundle,
) -> Result<Vec<u8>, AllocError>
    requires few { length sent.now.items ≤ max_run_items }
    requires fits { AllByRecursion item.Fits sent.now.items }
    ensures { let kept = grouped (filter (spec.counts store.now.slots) sent.now.items) in
        IfOk result (λ bytes. bytes.items ≡ magic ++ (version ∷ horizon_bytes sent.now.horizon
        ++ ((number w16).spell (length kept) ++ pieces_bytes kept))) }
{
    let items = sent.items();
    let count = count_pieces(store, None, items);
    let mut writer = begin_bundle(alloc, version, sent.horizon(), count)?;
    write_pieces(alloc, store, None, items, &mut writer)?;
    Ok(writer.into_bytes())
}

// Returns whether taking in the bundle changes the store.
fn changes(store: &FactStore, sent: &Bundle) -> bool
    ensures { result ≡ spec.changes store.now sent.now }
{
    is_later(store.horizon(), sent.horizon()) || changes_slots(store, sent.items())
}

// Returns whether a bundle's horizon, if it has one, is later than the store's.
fn is_later(horizon: Moment, sent: Option<Moment>) -> bool
    ensures { result ≡ spec.is_later horizon sent }
{
    match sent {
        Some(moment) => horizon.seconds() < moment.seconds(),
        None => false,
    }
}

// Returns whether an item changes what is known of its dot.
fn changes_slots(store: &FactStore, items: &[Item]) -> bool
    ensures { result ≡ spec.changes_slots store.now.slots items.now }
{
    items.iter().any(|item| changes_slot(store, item))
}

// Returns whether the item changes what is known of its dot.
fn changes_slot(store: &FactStore, item: &Item) -> bool
    ensures { result ≡ spec.changes_slot (map.get store.now.slots item.now.0) item.now.1 }
{
    match (store.slot(item.dot()), item.slot()) {
        (None, _) => true,
        (Some(SlotRef::Held(_)), SlotRef::Skipped) => true,
        (Some(SlotRef::Held(_)), SlotRef::Held(_)) => false,
        (Some(SlotRef::Skipped), _) => false,
    }
}

// Returns whether the item isn't dropped when it is taken in.
pub(crate) fn counts(store: &FactStore, item: &Item) -> bool
    ensures { result ≡ spec.counts store.now.slots item.now }
{
    is_mark(item) || !store.skipped(item.dot())
}

// Returns the version of the items that aren't dropped. A bundle with a horizon has a mark, and no
// mark is dropped.
fn version_kept(store: &FactStore, sent: &Bundle) -> u8
    requires { bundle.Fits sent.now }
    ensures { result
        ≡ version_of sent.now.runs (filter (spec.counts store.now.slots) sent.now.items) }
{
    version_with(
        newest_kept(0, store, sent.items()),
        sent.horizon().is_some(),
        sent.has_runs(),
    )
}

// Returns the newest kind of the items that aren't dropped, or `last` if that is newer. Recurses
// over at most 1,024 items, as the next two functions do.
fn newest_kept(last: u8, store: &FactStore, items: &[Item]) -> u8
    ensures { result ≡ newest_kind last (filter (spec.counts store.now.slots) items.now) }
{
    match items {
        [] => last,
        [first, rest @ ..] => {
            if counts(store, first) {
                newest_kept(last.max(kind_in(&first.slot())), store, rest)
            } else {
                newest_kept(last, store, rest)
            }
        }
    }
}

// Returns the number of items that aren't dropped.
fn count_kept(store: &FactStore, items: &[Item]) -> u16
    requires { length items.now ≤ max_items }
    ensures value { result ≡ length (filter (spec.counts store.now.slots) items.now) }
    ensures short { result ≤ length items.now }
{
    match items {
        [] => 0,
        [first, rest @ ..] => {
            if counts(store, first) {
                count_kept(store, rest) + 1
            } else {
                count_kept(store, rest)
            }
        }
    }
}

// Writes the items that aren't dropped.
fn write_kept(
    alloc: Global,
    store: &FactStore,
    items: &[Item],
    writer: &mut Writer,
) -> Result<(), AllocError>
    requires { AllByRecursion item.Fits items.now }
    ensures { OnOk result (writer.new ≡ writer.old ++ flat_map item.spell
        (filter (spec.counts store.now.slots) items.now)) }
{
    let [first, rest @ ..] = items else {
        return Ok(());
    };
    if counts(store, first) {
        write_sent(alloc, first, writer)?;
    }
    write_kept(alloc, store, rest, writer)
}

// Writes an item.
fn write_sent(alloc: Global, sent: &Item, writer: &mut Writer) -> Result<(), AllocError>
    requires { item.Fits sent.now }
    ensures { OnOk result (writer.new ≡ writer.old ++ item.spell sent.now) }
{
    match sent.slot() {
        SlotRef::Held(fact) => {
            fact.write_framed(alloc, writer)?;
            Ok(())
        }
        SlotRef::Skipped => write_mark(sent.dot(), writer),
    }
}
