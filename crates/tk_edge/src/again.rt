//! The reply to a refresh that is repeated, as bytes: `Edge::repeat`.

ghost use Rattle.std.specs.Prelude.{◌≡◌, IfOk};
ghost use Rattle.std.specs.Option.{option_map};
ghost use Rattle.tk_edge.specs.Again.{repeat_at};

use crate::edge::Edge;
use crate::render::reply_bytes;
use std::alloc::{AllocError, Global};
use tk_handle::{Dot, Moment};

impl Edge {
    /// Returns the bytes of the reply to a refresh again: with the two tokens that the fact at this
    /// dot minted of these random words, if both are live at the moment (own).
    ///
    /// Nothing changes. A sealed edge, and a region before its horizon, have no such reply. Returns
    /// an error if memory runs out.
    pub fn repeat(
        &self,
        alloc: Global,
        now: Moment,
        dot: Dot,
        words: &[u64; 6],
    ) -> Result<Option<Vec<u8>>, AllocError>
        ensures { IfOk result (λ bytes. option_map (λ v. v.items) bytes
            ≡ repeat_at self.now now dot words.now) }
    {
        if self.sealed() {
            return Ok(None);
        }
        match self.region().repeat(alloc, now, dot, words)? {
            Some(reply) => {
                let bytes = reply_bytes(alloc, &reply)?;
                Ok(Some(bytes))
            }
            None => Ok(None),
        }
    }
}
