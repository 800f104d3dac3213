//! A world: regions, the requests that reach them, and the bundles between them.
//!
//! `World::run` takes a list of events and returns one outcome for each. Its contract has the
//! promises of the project. Each region stands for the facts that it made and took in, and from its
//! horizon on answers as the definition over them, whatever it skipped by pruning. Bundles may be
//! lost, repeated, late or out of order.
//!
//! In reading order:
//!
//! - `Event`, `Outcome`, `World`: what happens to a world. `Carrier`: how requests reach its
//!   regions. Inside, `region` hands bundles to one region, and has it prune, whole or in slices;
//!   `bundle` makes bundles of its pages.
//! - `line`, `request_line`, `fields`: `Event::read_line` reads an event, a line.
//! - `print`, `reply_parts`: `print_outcomes` writes outcomes as lines.
//!
//! The definitions are in `specs/`: `Acts` has what events do to the regions' stores, `State` and
//! `World` have steps and runs over all facts, and `WorldStands` ties the two. The crate reads no
//! clock and draws no random words: each event brings them. It opens no socket: a `Carrier` may.
#![tactic(auto)]

mod bundle;
mod carrier;
mod event;
mod fields;
mod line;
mod print;
mod region;
mod reply_parts;
mod request_line;
mod world;

pub use carrier::{Carrier, RunError};
pub use event::{Event, Outcome};
pub use print::print_outcomes;
pub use tk_region::Settings;
pub use world::World;
