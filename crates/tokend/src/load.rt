//! Loads an old log: `load` takes its bundles into a region, record by record.

ghost use Rattle.std.specs.Prelude.{◌≡◌, ◌⊎◌, ℕ, List, IfOk, IfErr, IfSome};
ghost use Rattle.tokend.specs.Loading as spec;
ghost use Rattle.tokend.specs.Loading.{Loads, TakesOne};
ghost use Rattle.tokend.specs.declared.load.LoadFault.TheVariants as fault;

use crate::script::READ_AT_ONCE;
use std::alloc::{AllocError, AllocFailed, Global};
use std::io::Read;
use tk_bundle::{FrontError, read_front};
use tk_region::{Region, TakeError};

/// Why a log isn't loaded to its end. The facts of the bundles before the fault stay.
#[derive(Clone, Copy)]
pub enum LoadFault {
    /// At this offset, in bytes from the beginning of the log, is no bundle.
    Malformed(u64),
    /// The region refuses the bundle at this offset.
    Refused(u64),
    /// The log can't be read. No fact was taken in.
    CannotRead,
    /// Memory ran out. The first facts of the next bundle may have been taken in.
    Memory,
}

/// Takes in the bundles of a log in order, and returns how many bytes at its end were dropped.
///
/// Each bundle is read once, and taken in as [`Region::take_in`] does. The dropped bytes are the
/// beginning of a record that was cut. The log is read whole before its first bundle is taken in.
pub(crate) fn load<I: Read>(
    alloc: Global,
    region: &mut Region,
    reader: &mut I,
) -> Result<u64, LoadFault>
    // If the reader's bytes are unknown, the clause holds for some log.
    ensures { (log : List ℕ) × IfSome (I.remaining reader.old) (λ bytes. log ≡ bytes)
        × Loads region.old log result region.new }
{
    match read_log(alloc, reader) {
        Ok(log) => load_bytes(alloc, region, &log),
        Err(fault) => Err(fault),
    }
}

// Reads the bytes of a log.
fn read_log<I: Read>(alloc: Global, reader: &mut I) -> Result<Vec<u8>, LoadFault>
    ensures whole { IfOk result
        (λ log. IfSome (I.remaining reader.old) (λ bytes. log.items ≡ bytes)) }
    ensures fault { IfErr result (λ f. (f ≡ fault.CannotRead) ⊎ (f ≡ fault.Memory)) }
{
    let mut log = Vec::new(alloc);
    let mut piece = [0u8; READ_AT_ONCE];
    while log.len() < usize::MAX {
        let Ok(count) = reader.read(&mut piece) else {
            return Err(LoadFault::CannotRead);
        };
        if count == 0 {
            return Ok(log);
        }
        log.extend_from_slice(&piece[..count])?;
    }
    Err(LoadFault::Memory)
}

// Takes in the bundles that these bytes spell.
fn load_bytes(alloc: Global, region: &mut Region, log: &[u8]) -> Result<u64, LoadFault>
    ensures { Loads region.old log.now result region.new }
{
    let mut rest = log;
    while !rest.is_empty() {
        let offset = log.len().saturating_sub(rest.len()) as u64;
        match take_front(alloc, region, offset, rest) {
            Ok(Some(count)) => (_, rest) = rest.split_at(count),
            Ok(None) => return Ok(rest.len() as u64),
            Err(fault) => return Err(fault),
        }
    }
    Ok(0)
}

// Takes in the bundle at the front of the rest, which is at this offset of the log. Returns its
// length in bytes, or `None` if it is cut.
fn take_front(
    alloc: Global,
    region: &mut Region,
    offset: u64,
    rest: &[u8],
) -> Result<Option<usize>, LoadFault>
    ensures { TakesOne offset region.old rest.now result region.new }
{
    let (bundle, count) = match read_front(alloc, rest) {
        Ok(front) => front,
        Err(error) => return front_end(offset, error),
    };
    match region.take_bundle(bundle) {
        Ok(_) => Ok(Some(count)),
        Err(error) => Err(take_fault(offset, error)),
    }
}

// Returns the outcome for a front at this offset that can't be read: `None` if the log is cut
// there.
fn front_end(offset: u64, error: FrontError) -> Result<Option<usize>, LoadFault>
    ensures { result ≡ spec.front_end offset error }
{
    match error {
        FrontError::Cut => Ok(None),
        FrontError::Malformed => Err(LoadFault::Malformed(offset)),
        FrontError::Memory => Err(LoadFault::Memory),
    }
}

// Returns the fault of a bundle at this offset that the region doesn't take in.
fn take_fault(offset: u64, error: TakeError) -> LoadFault
    ensures { result ≡ spec.take_fault offset error }
{
    match error {
        TakeError::Memory => LoadFault::Memory,
        TakeError::Malformed | TakeError::OwnNumber | TakeError::Conflict => {
            LoadFault::Refused(offset)
        }
    }
}

impl From<AllocError> for LoadFault {
    ghost from_gives = { λ _ e. e ≡ fault.Memory };

    fn from(_error: AllocError) -> LoadFault {
        LoadFault::Memory
    }
}

impl<T: Drop> From<AllocFailed<T>> for LoadFault {
    ghost from_gives = { λ _ e. e ≡ fault.Memory };

    fn from(_error: AllocFailed<T>) -> LoadFault {
        LoadFault::Memory
    }
}
