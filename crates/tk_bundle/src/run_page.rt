//! Pages with runs: what a store knows and a vector does not cover, for a receiver that reads runs.

ghost use Rattle.std.specs.Prelude.{◌≡◌, ◌≤◌, ◌++◌, ◌∷◌, [], IfOk, OnOk, None, length, map, take};
ghost use Rattle.std.specs.List.{AllByRecursion};
ghost use Rattle.tk_handle.specs.Moment.{moment};
ghost use Rattle.tk_store.specs.FactSet.{dot_of};
ghost use Rattle.tk_bundle.specs.Bundle.{bundle};
ghost use Rattle.tk_bundle.specs.BundleFields.{Items};
ghost use Rattle.tk_bundle.specs.Items.{item};
ghost use Rattle.tk_bundle.specs.Page.{IsPageOf, items_at};
ghost use Rattle.tk_bundle.specs.PieceBytes.{max_pieces, max_run_items};
ghost use Rattle.tk_bundle.specs.PieceCounts as counts;
ghost use Rattle.tk_bundle.specs.Pieces.{grouped};
ghost use Rattle.tk_bundle.specs.RunPage as spec;

use crate::bundle::MAX_ITEMS;
use crate::page::{Page, begin_bundle, last_of, newest_at, page_at};
use crate::piece::{continues_at, mark_at_end};
use crate::pieces::MAX_RUN_ITEMS;
use crate::run::{Run, put_fact, put_mark, put_pending};
use crate::version::version_with;
use std::alloc::{AllocError, Global};
use tk_format::Writer;
use tk_handle::Dot;
use tk_store::{FactStore, SlotRef};
use tk_vector::VersionVector;

/// Makes the page of a store for a vector and a receiver that reads runs. Marks that follow one
/// another are one piece of the page. The page has the first facts and marks above the cursor
/// `after` that the vector does not cover: at most 128 pieces, and at most 1,024 items. A page with
/// a mark has the store's horizon.
///
/// A page in which no mark follows another is spelled as one that [`crate::make`] makes. If more
/// follow, the next page is the one with the last dot as its cursor. Returns an error, and no part
/// of a page, if memory runs out.
pub fn make_with_runs(
    alloc: Global,
    store: &FactStore,
    vector: &VersionVector,
    after: Option<Dot>,
) -> Result<Page, AllocError>
    ensures page { IfOk result (λ page.
        IsPageOf page (spec.run_page_of store.now vector.now after)) }

    // A page can be read.
    ensures fits { OnOk result
        (bundle.Fits (spec.run_page_of store.now vector.now after).bundle) }
{
    let mut dots = store.since(alloc, vector, after, MAX_RUN_ITEMS + 1)?;
    let count = fitting(store, &dots);
    let more = dots.as_slice().len() > count;
    dots.truncate(count);
    pieced_page(alloc, store, &dots, more)
}

// Returns how many of the first 1,024 of the dots are at most 128 pieces.
fn fitting(store: &FactStore, dots: &[Dot]) -> usize
    ensures { result ≡ counts.fitting max_pieces None
        (map (counts.marked_in store.now.slots) (take max_run_items dots.now)) }
{
    if dots.len() > MAX_RUN_ITEMS {
        fitting_of(store, &dots[..MAX_RUN_ITEMS])
    } else {
        fitting_of(store, dots)
    }
}

// Returns how many of the first dots are at most 128 pieces.
fn fitting_of(store: &FactStore, dots: &[Dot]) -> usize
    ensures { result ≡ counts.fitting max_pieces None
        (map (counts.marked_in store.now.slots) dots.now) }
{
    let mut last: Option<Dot> = None;
    let mut room = MAX_ITEMS;
    let mut count: usize = 0;
    for dot in dots {
        let marked = store.skipped(*dot);
        if !continues_at(last, *dot, marked) {
            if room == 0 {
                return count;
            }
            room -= 1;
        }
        last = mark_at_end(*dot, marked);
        count += 1;
    }
    count
}

// Makes the page of what the store knows of dots that are at most 128 pieces, with runs if there
// are any.
fn pieced_page(
    alloc: Global,
    store: &FactStore,
    dots: &[Dot],
    more: bool,
) -> Result<Page, AllocError>
    requires known { map dot_of (items_at store.now.slots dots.now) ≡ dots.now }
    requires short { length dots.now ≤ max_run_items }
    requires few { length (grouped (items_at store.now.slots dots.now)) ≤ max_pieces }
    ensures page { IfOk result (λ page. spec.IsRunPageAt page store.now dots.now more) }
    ensures fits { OnOk result (AllByRecursion item.Fits
        (items_at store.now.slots dots.now)) }
    ensures horizon { moment.Fits store.now.horizon }
{
    let pieces = count_pieces(store, dots);
    if pieces as usize == dots.len() {
        return page_at(alloc, store, dots, more);
    }
    run_page_at(alloc, store, dots, pieces, more)
}

// Returns the number of pieces of what the store knows of the dots.
fn count_pieces(store: &FactStore, dots: &[Dot]) -> u16
    requires { length dots.now ≤ max_run_items }
    ensures { result ≡ counts.piece_count None
        (map (counts.marked_in store.now.slots) dots.now) }
{
    let mut last: Option<Dot> = None;
    let mut count: u16 = 0;
    for dot in dots {
        let marked = store.skipped(*dot);
        if !continues_at(last, *dot, marked) {
            count += 1;
        }
        last = mark_at_end(*dot, marked);
    }
    count
}

// Makes the page of what the store knows of dots, as a number of pieces, with runs.
fn run_page_at(
    alloc: Global,
    store: &FactStore,
    dots: &[Dot],
    pieces: u16,
    more: bool,
) -> Result<Page, AllocError>
    requires { length dots.now ≤ max_run_items }
    ensures page { IfOk result (λ page. spec.IsRunsAt page store.now dots.now pieces more) }
    ensures fits { OnOk result (AllByRecursion item.Fits
        (items_at store.now.slots dots.now)) }
    ensures horizon { moment.Fits store.now.horizon }
{
    let version = version_with(newest_at(store, dots), true, true);
    store.horizon().known();
    let mut writer = begin_bundle(alloc, version, Some(store.horizon()), pieces)?;
    write_pieces(alloc, store, dots, &mut writer)?;
    Ok(Page {
        bytes: writer.into_bytes(),
        count: dots.len() as u16,
        last: last_of(dots),
        more,
    })
}

// Writes what the store knows of the dots, with marks that follow one another as runs.
fn write_pieces(
    alloc: Global,
    store: &FactStore,
    dots: &[Dot],
    writer: &mut Writer,
) -> Result<(), AllocError>
    ensures written { OnOk result (writer.new
        ≡ writer.old ++ spec.pieces_bytes (grouped (items_at store.now.slots dots.now))) }
    ensures fits { OnOk result (AllByRecursion item.Fits
        (items_at store.now.slots dots.now)) }
{
    let mut pending: Option<Run> = None;
    for dot in dots {
        pending = put_known(alloc, store, pending, *dot, writer)?;
    }
    put_pending(pending, writer)
}

// Writes what the store knows of a dot behind the marks that are not written yet, but not the last
// marks, and returns these.
fn put_known(
    alloc: Global,
    store: &FactStore,
    pending: Option<Run>,
    dot: Dot,
    writer: &mut Writer,
) -> Result<Option<Run>, AllocError>
    ensures written { IfOk result (λ next. (more : Items)
        → writer.new ++ spec.pieces_bytes (spec.pieces_behind next more)
        ≡ writer.old ++ spec.pieces_bytes (spec.pieces_behind pending
        (items_at store.now.slots (dot ∷ []) ++ more))) }
    ensures fits { OnOk result (AllByRecursion item.Fits
        (items_at store.now.slots (dot ∷ []))) }
{
    store.known();
    dot.known();
    match store.slot(dot) {
        Some(SlotRef::Held(fact)) => {
            fact.known();
            put_fact(alloc, pending, fact, writer)?;
            Ok(None)
        }
        Some(SlotRef::Skipped) => put_mark(pending, dot, writer),
        None => Ok(pending),
    }
}
