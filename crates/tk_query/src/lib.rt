//! Introspection and revocation of tokens (RFC 7662; RFC 7009).
//!
//! `decide_introspect` decides a request to `/introspect` by the facts, the moment, the request and
//! the region's choice of who sees refresh tokens: it takes no place, no random words and no lives.
//! The outcome is an `Introspected`. The law `says_active` states that the reply reports exactly
//! the active tokens that the sender may see.
//!
//! `decide_revoke` decides a request to `/revoke`. Who may revoke a token of another region that
//! this region has not seen is one of the region's `Choices`. The outcome is a `Revocation`: a
//! `Refusal`, an `Idle` if nothing is left to revoke, the fact, or `Later`.
//!
//! Whether a token is active is tk_ledger's to say, by its `status`. The crate adds no fact.
//!
//! In reading order: `Refusal`, `Introspected`, `decide_introspect`, `Idle`, `Revocation`,
//! `decide_revoke`, `says_active`, `queries_alike`. The definitions are in `specs/`, by the name of
//! the file. `Caller` has the names of the parameters that both endpoints know.
#![tactic(auto)]

mod caller;
mod idle;
mod introspected;
mod introspection;
mod laws;
mod refusal;
mod revocation;
mod revoked;

pub use introspection::decide_introspect;
pub use laws::{queries_alike, says_active};
pub use revocation::decide_revoke;
