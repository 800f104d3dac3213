//! The events that may happen to a world (`Event`), and how each ends (`Outcome`).

use tk_handle::{Dot, Moment, RegionNumber};
use tk_ledger::Slice;
use tk_message::StatusCode;
use tk_vector::VersionVector;

/// An event that may happen to a world.
#[derive(Drop)]
pub enum Event {
    /// A region without facts opens under this number.
    Open(RegionNumber),
    /// The bytes of a stream that then ends reach a region at a moment, with six random words.
    Request {
        region: RegionNumber,
        now: Moment,
        words: [u64; 6],
        bytes: Vec<u8>,
    },
    /// A region makes a bundle: the page above the cursor of the facts that the vector doesn't
    /// cover.
    Pull {
        region: RegionNumber,
        vector: VersionVector,
        after: Option<Dot>,
    },
    /// A bundle reaches a region. Bundles are numbered from 0 in the order of making.
    Deliver {
        bundle: u64,
        region: RegionNumber,
    },
    /// A region skips the facts of families that are over at its horizon, which is raised to this
    /// moment if that is later.
    Prune {
        region: RegionNumber,
        horizon: Moment,
    },
    /// A region looks at `count` facts above a cursor, or from the least dot on, and skips each
    /// that may go at its horizon, which is raised to this moment if that is later.
    PruneSome {
        region: RegionNumber,
        horizon: Moment,
        after: Option<Dot>,
        count: u64,
    },
}

/// How an event ended.
#[derive(Drop)]
pub enum Outcome {
    /// The region is open.
    Opened,
    /// A region is open under the number already. Nothing changed.
    NumberTaken,
    /// No region is open under the number.
    NoRegion,
    /// No bundle of the number has been made.
    NoBundle,
    /// The region's reply: its status and bytes. The fact made for the reply, if any, is already
    /// stored. An empty request gets an empty reply.
    Reply {
        status: StatusCode,
        bytes: Vec<u8>,
    },
    /// The bundle made: its number, how many items it has, facts and marks, the dot of the last
    /// one, and whether more follow.
    Bundle {
        index: u64,
        count: u16,
        last: Option<Dot>,
        more: bool,
    },
    /// How many of the bundle's facts were neither held nor skipped.
    Took(u16),
    /// How many facts were skipped.
    Pruned(u64),
    /// How many facts a slice of a prune skipped, and the cursor of the next slice.
    PrunedSome(Slice),
    /// Memory ran out. Nothing changed, except that a delivery may have raised the horizon and
    /// added the first items of its bundle.
    Memory,
}
