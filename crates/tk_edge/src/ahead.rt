//! Reads pushed bundles: `read_pushed` refuses one by the terms of a push.

use tk_region::TakeError;

/// The reason why a pushed bundle is not taken in (own). `HorizonAhead` and `OutOfRange` are tested
/// in this order, after `Malformed` and before `OwnNumber` and `Conflict`.
#[derive(Clone, Copy)]
pub enum PushError {
    /// The bundle's horizon is later than the moment, and the edge refuses such bundles.
    HorizonAhead,
    /// An item of the bundle is under a number that the edge does not accept.
    OutOfRange,
    /// The reason why the region does not take the bundle in.
    Take(TakeError),
}

ghost use Rattle.std.specs.Prelude.{◌≡◌};
ghost use Rattle.tk_edge.specs.Ahead as spec;

use crate::terms::{Terms, is_out_of_range};
use std::alloc::Global;
use tk_bundle::Bundle;
use tk_handle::Moment;

// Reads a pushed bundle, and refuses it if the terms do at the moment.
pub(crate) fn read_pushed(
    alloc: Global,
    terms: &Terms,
    now: Moment,
    bytes: &[u8],
) -> Result<Bundle, PushError>
    ensures { spec.ReadsPushed terms.now now bytes.now result }
{
    match Bundle::read(alloc, bytes) {
        Ok(sent) => {
            if terms.refuses_ahead && is_ahead(now, &sent) {
                return Err(PushError::HorizonAhead);
            }
            if is_out_of_range(terms, &sent) {
                return Err(PushError::OutOfRange);
            }
            Ok(sent)
        }
        Err(error) => Err(PushError::Take(TakeError::unread(error))),
    }
}

// Returns whether a bundle's horizon is later than the moment.
fn is_ahead(now: Moment, sent: &Bundle) -> bool
    ensures { result ≡ spec.is_ahead now sent.now }
{
    match sent.horizon() {
        Some(horizon) => now.seconds() < horizon.seconds(),
        None => false,
    }
}

// Returns the result of a push, by that of taking the bundle in.
pub(crate) fn lifted(taken: Result<u16, TakeError>) -> Result<u16, PushError>
    ensures { result ≡ spec.lifted taken }
{
    match taken {
        Ok(count) => Ok(count),
        Err(error) => Err(PushError::Take(error)),
    }
}
