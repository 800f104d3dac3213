//! What is known of facts, and what follows from it for clients, consents and tokens.
//!
//! A `Ledger` holds the facts of one region, in a `FactStore`, and tables beside it, the `Index`,
//! which no crate above sees. Facts may be from anyone and arrive in any order, and be skipped in
//! any order: each look-up returns what the facts that are held determine, without memory. At a
//! skipped dot each status is wrong. The ledger decides no request, and has no bytes and no clock.
//!
//! - `add` adds a fact or refuses it. `Join` joins two ledgers, as their stores are.
//! - `skip` drops a fact for good and keeps its dot known. `prune` skips all facts of families that
//!   are over at a moment, and raises the `horizon` to it. `prune_some` does so for some facts at a
//!   time.
//! - `client`, `consent` and `consent_for` look up clients and consents, `revoked` and `signed_out`
//!   revocations and sign-outs. `status` returns the status of a handle, by one to eight look-ups.
//! - `login` looks up a login, and `ending` what ends it. `next_consent` and `next_login` walk over
//!   what a subject has.
//! - `accepts` checks a client's secret. `last_turn` and `has_secret` look up changes of secrets.
//!
//! In reading order: `Ledger`, `ClientView`, `ConsentView`, `Status`, `Standing`, `State`,
//! `LoginView`; `index` for the tables and the change that a fact makes in them, `wake` for the
//! marks of a dot. `specs/Lib.antt` lists the definitions; `laws` states the laws.
#![tactic(auto)]

mod change;
mod client_rows;
mod client_view;
mod clients;
mod compare;
mod consent_keys;
mod consent_view;
mod consents;
mod index;
mod join;
mod laws;
mod ledger;
mod login_view;
mod logins;
mod looks;
mod prune;
mod retention;
mod reuses;
mod revocations;
mod root;
mod secrets;
mod sign_outs;
mod slices;
mod standing;
mod status;
mod subject_keys;
mod subject_walk;
mod unfollow;
mod wake;

pub use client_view::ClientView;
pub use consent_view::ConsentView;
pub use laws::{
    bad_grants, death_stays, ended_stays, family_inactive, pass_ends, retired_stays,
    revoked_inactive, secrets_end, signed_out_inactive, status_says, tests_decide, uses_agree,
    withdrawn_stays,
};
pub use ledger::Ledger;
pub use login_view::LoginView;
pub use slices::Slice;
pub use status::{Standing, State, Status};
