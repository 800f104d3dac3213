//! Families of tokens: which code a token descends from, and whether that family is dead.
//!
//! A `Link` is what one fact does in a family: it mints a code, redeems one, or rotates a refresh
//! token. Links may come from anyone, in any order: what a link names may be missing, or not fit,
//! and rotations may form a ring. `Forest` keeps links and marks so that no look-up walks, and
//! `Steps` counts the look-ups. Of tokens it knows dots and kinds alone: no client, no subject and
//! no moment.
//!
//! In reading order:
//!
//! 1. `Link`; `specs/Families.antt`, the definitions; `specs/Walks.antt`, the walk;
//! 2. `laws`, functions with empty bodies, each stated in `specs/Laws.antt` and proved in
//!    `proofs/`;
//! 3. `specs/Tops.antt`, `Top` and `Forest`; `forest` says what the rows keep, `specs/Kept.antt`
//!    states it;
//! 4. `row`, `packed`, `children`, `look`, `write` and `gather`: rows, and what hangs below a dot;
//!    `put`, `mark`, `take` and `find`, which are made of these. `specs/` has their definitions.
//! 5. `proofs/Growth.antt`, the main lemmas of `put`; `Taking`, of `take`; `Counting`, of the
//!    counts; `Hanging`, of the children.
#![tactic(auto)]

mod children;
mod find;
mod forest;
mod gather;
mod laws;
mod link;
mod look;
mod mark;
mod packed;
mod put;
mod row;
mod steps;
mod take;
mod top;
mod user;
mod write;

pub use forest::Forest;
pub use laws::{
    chain_length, death_stays, one_code, rank_falls, twice_stays, under_stays, walk_ends,
    walk_finds,
};
pub use link::Link;
pub use steps::Steps;
pub use top::Top;
