//! Version vectors: to each region, the serial up to which every fact is known.
//!
//! A region sends its vector to request the facts that it lacks. It has the facts that the vector
//! covers: those whose serial is at most the entry of their region. A region without an entry
//! counts as 0. A vector says nothing of facts above a gap, and nothing of what the facts are.
//!
//! Contracts see a `VersionVector` as a finite map from region numbers to serials. The definitions
//! are in `specs/`:
//!
//! - `VersionVector` defines `entry`, `raised`, `lowered` and `Covers`;
//! - `VectorText` defines which texts `read_text` reads;
//! - `VectorBytes` defines which bytes `write` writes and `read` reads;
//! - `VectorOrder` defines the order of vectors.
//!
//! The trait `Join` is for values that grow and are joined to the least value above both: vectors
//! here, and sets of facts in a crate above. `specs/Join` defines what the trait promises.
#![tactic(auto)]

mod bytes;
mod join;
mod text;
mod vector;

pub use join::{Join, JoinError};
pub use vector::{VersionVector, vectors_join};
