//! Scopes of access (RFC 6749, section 3.3).
//!
//! A scope is a set of scope-tokens, written as a text with a space between each two. This crate
//! decides which texts are scopes, why another text is refused, which scope is within which, and
//! how a scope is printed. The crate knows nothing of clients, requests or tokens.
//!
//! In reading order:
//!
//! - [`ScopeError`], why a text is refused, in the order of the tests;
//! - [`Scope`], with `read`, `within`, `text`, `copy` and `same`, limited to [`MAX_BYTES`] and 32
//!   tokens.
//!
//! Contracts see a `Scope` as the bytes of its printed form. Therefore equal sets are equal values.
//! `specs/Scope.antt` defines what the contracts cite.
#![tactic(auto)]

mod error;
mod grammar;
mod printed;
mod scope;
mod tokens;

pub use error::ScopeError;
pub use scope::{MAX_BYTES, Scope};
