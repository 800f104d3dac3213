//! Bundles: facts, and the marks of skipped facts, as bytes on their way from region to region.
//!
//! A bundle is a list of items, strictly ascending by dot. An item is a fact, or the mark that the
//! fact of a dot was skipped. A bundle with a mark has the horizon up to which its sender skipped
//! facts. In a bundle with runs, marks that follow one another are spelled as one piece; the sender
//! chooses. Such a bundle has at most 128 pieces and 1,024 items, any other at most 128 items. A
//! bundle has exactly one spelling. Nothing is taken in here: that is for the regions.
//!
//! - `make` writes a page: what a store knows, above a cursor, and a version vector does not cover.
//!   `make_with_runs` writes one with runs.
//! - `single` writes a record of a log, the bundle of one fact, and `news` that of a bundle that is
//!   taken in: what a store doesn't drop of it, if the bundle changes the store.
//! - `Bundle::read` reads bytes that may be hostile. `read_front` reads the first bundle of many,
//!   and has one error for bytes that end too early and another for bytes that are no bundle.
//!
//! A bundle has the first version that has all of its items, and runs (`versions_told`).
//!
//! In reading order: `Version`, `Item`, `Page`, `make`, `single`, `Bundle`, `read_front`; then
//! `Piece`, `Run`, `make_with_runs`. Of `specs/`: `BundleFields`, `Versions`, `Items`, `Bundle`,
//! `Page`, `Paging`, `Front`; then `Pieces`, `PieceBytes`, `RunPage`.
#![tactic(auto)]

mod bundle;
mod changes;
mod error;
mod front;
mod item;
mod kept_pieces;
mod order;
mod page;
mod paging;
mod piece;
mod pieces;
mod run;
mod run_page;
mod version;

pub use bundle::{Bundle, none_begins_another, versions_told};
pub use changes::news;
pub use error::FrontError;
pub use front::read_front;
pub use item::Item;
pub use page::{Page, make, single};
pub use paging::pages_complete;
pub use run_page::make_with_runs;
