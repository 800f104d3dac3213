//! What logs, bundles and vectors hold, as lines of JSON.
//!
//! - [`print_lines`] reads an input piece by piece, and writes a line for each fact, mark and entry
//!   of a vector.
//!
//! It judges nothing: a fact is printed whether or not a region would take it in, and no fact is
//! compared with another. It reads no files, and changes no store.
//!
//! In reading order: `calendar`, moments as texts; `members`, the members of a JSON object;
//! `fields`, the fields of each kind of fact; `lines`, the line of an item; `piece`, a bundle or a
//! vector at the front of bytes; `print`, the whole input. The definitions are in `specs/`.
#![tactic(auto)]

mod calendar;
mod fields;
mod lines;
mod members;
mod piece;
mod print;

pub use print::{PrintFault, print_lines};
