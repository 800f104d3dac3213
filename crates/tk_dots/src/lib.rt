//! Finite maps from dots, in pages, and a finite set of dots, in runs.
//!
//! The dots of a region follow one another, mostly without a gap. Values are kept in pages of 64
//! dots each. A look-up finds the page in a small map of pages, and then the value by its place on
//! the page. A page ends with its last value, so a lone dot takes up to 64 places. A set of dots
//! keeps those that follow one another as one run. What a value or a mark means is for the crates
//! above.
//!
//! - `dots`: `DotMap`, a map. Contracts see a finite map from dots to values.
//! - `place`, `pages` and `slots`: the page of a dot and its place there, all pages, one page.
//! - `runs`: `DotRuns`, the set. Contracts see a finite set of dots.
//! - `marks`: `MarkMap`, a map whose marks are kept in runs. Contracts see a finite map from dots
//!   to values or marks.
//!
//! The definitions are in `specs/Pages.antt`, `specs/Runs.antt` and `specs/Marks.antt`.
#![tactic(auto)]

mod dots;
mod marks;
mod pages;
mod place;
mod runs;
mod slots;

pub use dots::DotMap;
pub use marks::MarkMap;
pub use runs::DotRuns;
