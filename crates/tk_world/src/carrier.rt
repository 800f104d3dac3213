//! How requests reach regions: a `Carrier` takes the bytes of a request to an edge and brings the
//! reply back, and `InPlace` is the carrier without a device between.

ghost use Rattle.std.specs.Prelude.{◌≡◌, false};
ghost use Rattle.tk_world.specs.Carrying.{in_place, Carries, Way};

use crate::event::Outcome;
use std::alloc::Global;
use std::convert::Infallible;
use tk_edge::{Edge, PathSet, Reach};
use tk_handle::Moment;

/// Carries requests to edges, and replies back.
pub trait Carrier {
    /// Why a request was lost.
    type Fault;

    // What a request may be heard as, and what its reply shows of the answer. A carrier that knows
    // its bytes promises more of them than one by sockets can.
    ghost way: { Way };

    /// Hands a request to an edge, at a moment and with six random words, and returns the reply, or
    /// `Memory` if memory runs out.
    ///
    /// The request is the bytes of a stream that then ends. The carrier hands it over at
    /// [`PathSet::Admin`], also if it carries by sockets: the paths of clients and of operators are
    /// served, and others are unknown.
    ///
    /// # Errors
    ///
    /// A fault if the request or its reply is lost. The edge is then unchanged, or has the fact
    /// that was made for the reply.
    fn carry(
        &self,
        edge: &mut Edge,
        now: Moment,
        words: &[u64; 6],
        bytes: &[u8],
    ) -> Result<Outcome, Self::Fault>
        requires sealed { edge.old.sealed ≡ false }
        ensures { Carries way edge.old
            (record { now = now; words = words.now; bytes = bytes.now }) result edge.new };
}

/// Why a run ended early.
#[derive(Drop)]
pub enum RunError<F> {
    /// There is no memory for the outcomes. No event has run.
    Memory,
    /// The carrier lost a request, or its reply. The events before it have run.
    Lost(F),
}

/// The carrier that hands the bytes to the edge itself. Nothing can be lost.
#[derive(Drop)]
pub(crate) struct InPlace {
    pub(crate) alloc: Global,
}

impl Carrier for InPlace {
    type Fault = Infallible;

    ghost way = { in_place };

    fn carry(
        &self,
        edge: &mut Edge,
        now: Moment,
        words: &[u64; 6],
        bytes: &[u8],
    ) -> Result<Outcome, Infallible> {
        match edge.answer(self.alloc, Reach::plain(PathSet::Admin), now, words, bytes) {
            Ok(answer) => Ok(Outcome::Reply {
                status: answer.status,
                bytes: answer.bytes,
            }),
            Err(_) => Ok(Outcome::Memory),
        }
    }
}
