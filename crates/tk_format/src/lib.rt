//! Formats of bytes: how values are spelled, and how they are read back.
//!
//! A format defines which values have a spelling, what that spelling is, and what is read from the
//! front of bytes. Combinators put formats together, and each combinator has one law: a value that
//! is read is spelled by the bytes read, and a spelling is read as its value. Therefore no value
//! has two spellings, and no spelling begins another. This crate knows no particular format: those
//! of handles, facts and bundles are defined beside their types.
//!
//! In reading order:
//!
//! - [`Reader`], the bytes that are left, taken from the front;
//! - [`Writer`], bytes written one after the other;
//! - [`ReadError`], malformed or out of memory;
//! - [`FromBytes`] and [`read_many`], several values of one type;
//! - [`Spelled`] and [`read_all`], a value that takes all of the bytes;
//! - [`read_decimal`], a number that is written in decimal digits;
//! - [`read_numeral`], a number of any length, up to a limit.
//!
//! `specs/Lib.antt` lists the definitions and laws.
#![tactic(auto)]

mod decimal;
mod error;
mod many;
mod numeral;
mod reader;
mod spelled;
mod writer;

pub use decimal::read_decimal;
pub use error::ReadError;
pub use many::{FromBytes, read_many};
pub use numeral::{Numeral, read_numeral};
pub use reader::Reader;
pub use spelled::{Spelled, read_all};
pub use writer::Writer;
