//! The pieces of what isn't dropped of a bundle with runs. The functions that walk over items
//! recurse over at most 1,024 of them.

ghost use Rattle.std.specs.Prelude.{◌≡◌, ◌≤◌, ◌++◌, ◌∷◌, filter, length, map, IfOk, OnOk};
ghost use Rattle.std.specs.List.{AllByRecursion};
ghost use Rattle.tk_bundle.specs.BundleFields.{Items};
ghost use Rattle.tk_bundle.specs.Items.{item};
ghost use Rattle.tk_bundle.specs.News.{counts};
ghost use Rattle.tk_bundle.specs.PieceBytes.{max_run_items};
ghost use Rattle.tk_bundle.specs.PieceCounts.{marked_item, piece_count};
ghost use Rattle.tk_bundle.specs.RunPage.{pieces_behind, pieces_bytes};

use crate::changes::counts;
use crate::item::{Item, is_mark};
use crate::piece::{continues_at, mark_at_end};
use crate::run::{Run, put_fact, put_mark, put_pending};
use std::alloc::{AllocError, Global};
use tk_format::Writer;
use tk_handle::Dot;
use tk_store::{FactStore, SlotRef};

// Returns the number of pieces of the items that aren't dropped, behind the last mark.
pub(crate) fn count_pieces(store: &FactStore, last: Option<Dot>, items: &[Item]) -> u16
    requires { length items.now ≤ max_run_items }
    ensures value { result
        ≡ piece_count last (map marked_item (filter (counts store.now.slots) items.now)) }
    ensures short { result ≤ length items.now }
{
    match items {
        [] => 0,
        [first, rest @ ..] => {
            if !counts(store, first) {
                return count_pieces(store, last, rest);
            }
            let marked = is_mark(first);
            let more = count_pieces(store, mark_at_end(first.dot(), marked), rest);
            if continues_at(last, first.dot(), marked) {
                more
            } else {
                more + 1
            }
        }
    }
}

// Writes the items that aren't dropped behind the marks that are not written yet.
pub(crate) fn write_pieces(
    alloc: Global,
    store: &FactStore,
    pending: Option<Run>,
    items: &[Item],
    writer: &mut Writer,
) -> Result<(), AllocError>
    requires { AllByRecursion item.Fits items.now }
    ensures { OnOk result (writer.new ≡ writer.old
        ++ pieces_bytes (pieces_behind pending (filter (counts store.now.slots) items.now))) }
{
    let [first, rest @ ..] = items else {
        return put_pending(pending, writer);
    };
    if !counts(store, first) {
        return write_pieces(alloc, store, pending, rest, writer);
    }
    let next = put_item(alloc, pending, first, writer)?;
    write_pieces(alloc, store, next, rest, writer)
}

// Writes an item behind the marks that are not written yet, but not the last marks, and returns
// these.
fn put_item(
    alloc: Global,
    pending: Option<Run>,
    sent: &Item,
    writer: &mut Writer,
) -> Result<Option<Run>, AllocError>
    requires { item.Fits sent.now }
    ensures { IfOk result (λ next. (more : Items)
        → writer.new ++ pieces_bytes (pieces_behind next more)
        ≡ writer.old ++ pieces_bytes (pieces_behind pending (sent.now ∷ more))) }
{
    match sent.slot() {
        SlotRef::Held(fact) => {
            put_fact(alloc, pending, fact, writer)?;
            Ok(None)
        }
        SlotRef::Skipped => put_mark(pending, sent.dot(), writer),
    }
}
