//! Facts: what a region knows, each at its dot. A fact is never changed or taken away.
//!
//! A `Fact` is a `Body` at a `Dot`, and a body is of one of twelve kinds.
//!
//! - `Fact::check` returns which rule a fact breaks, if any.
//! - `Fact::write` and `Fact::read` convert a fact to and from bytes: the dot, a byte for the kind,
//!   and the fields in the order of the kind's struct. A fact has exactly one spelling.
//! - `Fact::minted` returns the tokens that a fact mints, `Fact::uses` the token that it uses up.
//! - `Fact::kept_for` returns the token for which a fact is kept. When that token's family is over,
//!   the fact may be skipped.
//!
//! The crates above define what follows from several facts together. tk_scope and tk_match define
//! scopes, redirection URIs, lists of them, and challenges.
//!
//! The methods `known` do nothing at run time: they give a proof the fact that a value has a
//! spelling.
//!
//! In reading order: `Subject`, `By`, `ClientKind`, `ClientLives`, `MintedToken`, the twelve kinds
//! from `ClientAdded` to `SecretSet`, `Body`, `Fact`, `Minted`. `specs/Lib.antt` lists the
//! definitions.
#![tactic(auto)]

mod access_refreshed;
mod body;
mod by;
mod challenge_field;
mod check;
mod client_added;
mod client_kind;
mod client_lives;
mod client_retired;
mod code_issued;
mod code_redeemed;
mod consent_given;
mod consent_withdrawn;
mod digest;
mod fact;
mod flag;
mod keeping;
mod minted_token;
mod redirects_field;
mod refresh_rotated;
mod reuse_seen;
mod scope_field;
mod secret_set;
mod subject;
mod subject_out;
mod token_revoked;
mod tokens;
mod uri_field;

pub use access_refreshed::AccessRefreshed;
pub use body::Body;
pub use by::By;
pub use check::{
    FactError, MAX_ACCESS_LIFE, MAX_FAMILY_LIFE, MAX_GENERATIONS, MAX_REFRESH_LIFE, MAX_TURNS,
};
pub use client_added::ClientAdded;
pub use client_kind::ClientKind;
pub use client_lives::ClientLives;
pub use client_retired::ClientRetired;
pub use code_issued::CodeIssued;
pub use code_redeemed::CodeRedeemed;
pub use consent_given::ConsentGiven;
pub use consent_withdrawn::ConsentWithdrawn;
pub use fact::Fact;
pub use keeping::passing_is_kept;
pub use minted_token::MintedToken;
pub use refresh_rotated::RefreshRotated;
pub use reuse_seen::ReuseSeen;
pub use secret_set::SecretSet;
pub use subject::{Subject, SubjectError};
pub use subject_out::SubjectOut;
pub use token_revoked::TokenRevoked;
pub use tokens::Minted;
