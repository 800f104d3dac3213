//! Facts by their dots, no two at one dot, and the dots at which facts were skipped.
//!
//! A `FactStore` holds the facts of one region. What it knows of a dot is a slot: a fact that is
//! held, or the mark that one was skipped. What facts mean for tokens is for the crates above.
//! In reading order: `SlotRef`, `FactStore`, `Added`, `Facts`, the joins.
//!
//! - `add` joins one fact to the store or refuses it, and `take_back` undoes an addition.
//! - `skip` drops a fact and keeps its dot known. `skipped`, `slot` and `get` look a dot up.
//! - `horizon` returns the moment up to which families that are over may be skipped.
//! - `next_after` and `facts` walk the facts in the order of the dots, without a list of them.
//! - `vector` returns the front of the store. `since` returns the first dots, above a cursor, that
//!   a version vector doesn't cover. `next_dot` returns the dot of a region's next fact.
//! - `agrees` returns whether two stores can be joined, and `Join` joins them. These and `facts`
//!   walk over all slots, nothing else does.
//!
//! Contracts see a store as a finite map from dots to slots, and a horizon. The store keeps a map
//! by dot (`table`) and the front (`advance`); the crates above see neither. `specs/Lib.antt` lists
//! the definitions.
#![tactic(auto)]

mod advance;
mod join;
mod laws;
mod since;
mod slot;
mod store;
mod table;
mod walk;

pub use join::{stores_join, whole_stores_agree};
pub use laws::paging_completes;
pub use slot::SlotRef;
pub use store::{AddError, Added, FactStore};
pub use walk::Facts;
