//! The law of all pages of a store.

ghost use Rattle.tk_bundle.specs.Paging.{PagesComplete};

/// States a law: a receiver of all pages misses nothing (own).
///
/// The receiver knows all that a vector covers. The receiver took in the pages that [`crate::make`]
/// or [`crate::make_with_runs`] made for that vector, each with the last dot of the page before as
/// its cursor, until no more followed. Then it knows all that the sender knew at the first page:
/// each fact is held, or its dot is skipped. Nothing happens at run time.
pub fn pages_complete()
    ensures { PagesComplete }
{}
