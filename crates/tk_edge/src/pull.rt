//! What a pull requests. `Wanted` is its body, a cursor and a vector, which `read_wanted` reads.
//! `Pages` is named by its query, which `pages_by` reads.

use tk_handle::Dot;
use tk_vector::VersionVector;

/// The pages that a pull requests (own).
#[derive(Clone, Copy)]
pub enum Pages {
    /// With each mark by itself. Every build of tokend reads them.
    Plain,
    /// With marks that follow one another as one run.
    WithRuns,
}

// A pull: the cursor above which the page begins, and the vector of what the puller holds.
#[derive(Drop)]
pub(crate) struct Wanted {
    pub(crate) after: Option<Dot>,
    pub(crate) vector: VersionVector,
}

ghost use Rattle.std.specs.Prelude.{◌≡◌};
ghost use Rattle.tk_format.specs.Reading.{GetsAll, Reads};
ghost use Rattle.tk_edge.specs.Pulls.{cursor, cursor_at, pages_by, wanted};

use crate::path::is_named;
use std::alloc::Global;
use tk_format::{ReadError, Reader, Spelled, read_all};
use tk_handle::RegionNumber;

// Returns the pages that a query names: with runs, if it is `runs=1` and nothing more.
pub(crate) fn pages_by(query: &[u8]) -> Pages
    ensures { result ≡ pages_by query.now }
{
    if is_named(query, b"runs=1") {
        return Pages::WithRuns;
    }
    Pages::Plain
}

// Reads a pull from all of the bytes.
pub(crate) fn read_wanted(alloc: Global, bytes: &[u8]) -> Result<Wanted, ReadError>
    ensures { GetsAll (λ w. w) wanted result bytes.now }
{
    read_all(alloc, bytes)
}

impl Spelled for Wanted {
    ghost use Rattle.tk_edge.specs.PullLaws.{wanted_exact};
    ghost use Rattle.tk_edge.specs.Pulls.{wanted};

    ghost format = { wanted };

    fn read_from(alloc: Global, reader: &mut Reader<'_>) -> Result<Wanted, ReadError> {
        let after = read_cursor(reader).ok_or(ReadError::Malformed)?;
        let vector = VersionVector::read_from(alloc, reader)?;
        Ok(Wanted { after, vector })
    }

    ghost exact = { wanted_exact };
}

// Reads a cursor from the front.
fn read_cursor(reader: &mut Reader<'_>) -> Option<Option<Dot>>
    ensures { Reads (λ c. c) cursor result reader.old reader.new }
{
    let region = reader.take_u16()?;
    let serial = reader.take_u64()?;
    cursor_at(region, serial)
}

// Returns the cursor that two numbers spell, if any. Two zeros spell the cursor at the beginning.
fn cursor_at(region: u16, serial: u64) -> Option<Option<Dot>>
    ensures { result ≡ cursor_at (region, serial) }
{
    if region == 0 && serial == 0 {
        return Some(None);
    }
    let dot = Dot::new(RegionNumber::new(region)?, serial)?;
    Some(Some(dot))
}
