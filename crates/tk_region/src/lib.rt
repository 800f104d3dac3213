//! One region: how it decides requests, and takes in bundles.
//!
//! A `Region` is its number, its `Settings` and its ledger.
//!
//! - `decide` returns the reply to a request, the fact that the request makes, and the record of
//!   that fact. The region does not change.
//! - `repeat` gives the reply to a refresh again, and makes no fact. `minted_refresh` says whether
//!   a refresh can be repeated.
//! - `commit` adds the fact, and returns the reply only then. `handle` does both.
//! - `take_in` takes a bundle's facts and marks into the ledger, or refuses all of them before it
//!   changes anything.
//! - `prune` skips the facts of families that are over, and `prune_some` some of them at a time.
//!   These two and `take_in` raise the `horizon`, before which each request gets the reply 503
//!   `temporarily_unavailable`.
//! - `page` makes a bundle for another region, by the `vector` of that region, and
//!   `page_with_runs` one with runs of marks.
//!
//! In reading order: `Settings`, `Region`, `Prepared`, `Handled`, `TakeError`. `specs/Lib.antt`
//! lists the definitions. The crate reads no clock and draws no random words: both come with each
//! request.
#![tactic(auto)]

mod decision;
mod region;
mod settings;
mod step;
mod take;

pub use region::Region;
pub use settings::Settings;
pub use step::{Handled, Prepared};
pub use take::TakeError;
