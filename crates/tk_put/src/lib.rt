//! Writes and joins pieces of bytes.
//!
//! - [`put_all`] writes pieces to any output, and states what an output has that failed.
//! - [`joined`] and [`field_line`] make the bytes of heads.
//! - [`rest_of`] returns what is left of bytes behind their front.
//!
//! The crate opens no output, and doesn't flush: its callers do. What the pieces mean is theirs,
//! too. The definitions are in `specs/Put.antt`.
#![tactic(auto)]

mod join;
mod put;
mod rest;

pub use join::{field_line, joined};
pub use put::put_all;
pub use rest::rest_of;
