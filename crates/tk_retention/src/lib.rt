//! What a ledger that skipped facts still stands for: laws, and no code.
//!
//! A region that prunes forgets facts of families that are over. What it then answers must be what
//! it would answer over all facts that it made and took in. This crate defines for which facts a
//! store stands, and states that this is kept by a prune, a slice of one, a mark and a fact, and
//! that from the horizon on each request is decided by the store as by the facts for which it
//! stands. Which facts are skipped is tk_ledger's to say, and tk_world states all this of regions
//! that exchange bundles.
//!
//! The definitions are in `specs/`: `StandsFor`, `Laws`. The functions of `laws` have empty bodies:
//! they state the laws.
#![tactic(auto)]

mod laws;

pub use laws::{
    decision_stands, prune_stands, region_stands, slices_stand, soundness_stays, standing_kept,
    status_stands,
};
