//! The parameters of a request, and the client credentials that it presents (RFC 6749, 2.3, 3.1,
//! 3.2 and appendix B).
//!
//! In reading order:
//!
//! - `Params`, the names and values of a form or a query, decoded once;
//! - `One`, how often a name occurs;
//! - `Credentials`, a client's id and secret, from a Basic header or from the parameters.
//!
//! The crates above decide which names an endpoint knows, its reply if a name occurs twice,
//! and whose the credentials are. The crates `form_urlencoded` and `base64` define form encoding
//! and base64; this crate defines which bytes they are applied to. No claim is made about the time
//! that a comparison takes.
//!
//! The definitions are in `specs/`: `Params`, `Places`, `One`, `Basic`, `Credentials`.
#![tactic(auto)]

mod basic;
mod credentials;
mod params;
mod place;

pub use credentials::{Credentials, CredentialsError};
pub use params::{One, Params};
