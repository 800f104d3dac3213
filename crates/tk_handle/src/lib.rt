//! Numbers with ranges, and the names that clients and operators hold: ids of clients, consents and
//! logins, and handles.
//!
//! In reading order:
//!
//! - `RegionNumber` and `Serial`: a region numbers its facts 1, 2, 3 and so on;
//! - `Dot`, the name of a fact: a region number and a serial, with the text `R:S`;
//! - `Moment`, in whole seconds;
//! - `client_text`, `consent_text` and `login_text`, which write the ids of clients, consents and
//!   logins from the dots of the facts that began them; `read_client`, `read_consent` and
//!   `read_login` read exactly these texts;
//! - `Kind` and `TokenId`: a token is named by the dot of the fact that minted it, and by its kind;
//! - `Handle`, a token's name and three random words; clients hold its text, facts keep its digest.
//!
//! This crate has no clock and no generator: callers pass moments and random words. Each type that
//! is part of a fact has `read` and `write` for its bytes. Its method `known` does nothing at run
//! time: it gives a proof the fact that the value has a spelling.
//!
//! The definitions are in `specs/`, `Ranges` first and then a file for each type. `SortedEntries`
//! is for the sorted lists of the crates above.
#![tactic(auto)]

mod client_id;
mod consent_id;
mod dot;
mod dot_text;
mod handle;
mod id_text;
mod kind;
mod login_id;
mod moment;
mod region;
mod serial;
mod token_id;

pub use client_id::{client_text, read_client};
pub use consent_id::{consent_text, read_consent};
pub use dot::Dot;
pub use handle::Handle;
pub use kind::Kind;
pub use login_id::{login_text, read_login};
pub use moment::Moment;
pub use region::RegionNumber;
pub use serial::Serial;
pub use token_id::TokenId;
