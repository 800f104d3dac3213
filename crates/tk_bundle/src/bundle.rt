//! Bundles: facts and the marks of skipped facts, ascending by dot, and how they are read.

use crate::item::Item;
use std::marker::Model;
use tk_handle::Moment;

/// The bytes with which a bundle begins, before the digit of its version (own).
pub(crate) const MAGIC: &[u8] = b"OTB";

/// The greatest number of items in a bundle without runs, and of pieces in one with runs (own).
pub(crate) const MAX_ITEMS: u16 = 128;

/// Items, strictly ascending by dot; if a mark is among them, the horizon up to which the sender
/// skipped facts.
///
/// A bundle without runs has at most 128 items. In a bundle with runs, marks that follow one
/// another are one piece: it has at most 128 pieces, and at most 1,024 items.
#[derive(Drop)]
pub struct Bundle {
    horizon: Option<Moment>,
    runs: bool,
    items: Vec<Item>,
}

impl Model for Bundle {
    ghost use Rattle.tk_bundle.specs.BundleFields.{BundleFields};

    ghost Value = { BundleFields };

    ghost view = { λ b. record { horizon = b.horizon; runs = b.runs; items = b.items.items } };
}

ghost use Rattle.std.specs.Prelude.{◌≡◌, ◌≢◌, ◌++◌, [], List, ℕ, IfOk, IsErrOf};
ghost use Rattle.tk_format.specs.Reading.{Gets, GetsAll};
ghost use Rattle.tk_bundle.specs.Bundle.{counted_items, versioned, listed, bundle, bundle_bytes};
ghost use Rattle.tk_bundle.specs.Bundle.{contents, horizon_field, items_by, VersionsTold};
ghost use Rattle.tk_bundle.specs.BundleFields.{BundleFields};

use crate::order::is_ascending;
use crate::pieces::read_pieced;
use crate::version::{has_horizon, has_runs, version_of};
use std::alloc::Global;
use tk_format::{ReadError, Reader, Spelled, read_all, read_many};

impl Bundle {
    /// Reads the bundle that the bytes spell, all of them.
    ///
    /// The bytes may be hostile: no memory is reserved for a count that they only claim. Returns
    /// `Malformed` if the bytes spell no bundle, `Memory` if memory runs out.
    pub fn read(alloc: Global, bytes: &[u8]) -> Result<Bundle, ReadError>
        ensures found { IfOk result (λ b. bundle.Fits b × (bytes.now ≡ bundle_bytes b)) }
        ensures malformed { IsErrOf result ReadError.Malformed → (b : BundleFields)
            → bundle.Fits b → bytes.now ≢ bundle_bytes b }

        // The result as the format `bundle` reads the bytes.
        ensures exact { GetsAll (λ b. b) bundle result bytes.now }
    {
        read_all(alloc, bytes)
    }

    /// Returns the horizon: of a bundle with a mark, the moment up to which its sender skipped
    /// facts of families that are over; `None` of a bundle of facts alone.
    pub fn horizon(&self) -> Option<Moment>
        ensures { result ≡ self.now.horizon }
    {
        self.horizon
    }

    // Returns whether marks that follow one another are spelled as runs.
    pub(crate) fn has_runs(&self) -> bool
        ensures { result ≡ self.now.runs }
    {
        self.runs
    }

    /// Returns the items, ascending by dot.
    pub fn items(&self) -> &[Item]
        ensures { result.now ≡ self.now.items }
    {
        self.items.as_slice()
    }

    /// Returns the items as a vector, ascending by dot.
    pub fn into_items(self) -> Vec<Item>
        ensures { result.items ≡ self.items }
    {
        let Bundle {
            horizon: _,
            runs: _,
            items,
        } = self;
        items
    }
}

// Reads the magic, and what is behind it.
fn read_listed(alloc: Global, reader: &mut Reader<'_>) -> Result<Bundle, ReadError>
    ensures { Gets (λ b. b) listed result reader.old reader.new }
{
    reader.take_magic(MAGIC).ok_or(ReadError::Malformed)?;
    read_versioned(alloc, reader)
}

// Reads a digit, and what follows it. The digit must be that of the version of the items.
fn read_versioned(alloc: Global, reader: &mut Reader<'_>) -> Result<Bundle, ReadError>
    ensures { Gets (λ b. b) versioned result reader.old reader.new }
{
    let version = reader.take_u8().ok_or(ReadError::Malformed)?;
    let bundle = read_contents(alloc, version, reader)?;
    if version == version_of(bundle.runs, &bundle.items) {
        Ok(bundle)
    } else {
        Err(ReadError::Malformed)
    }
}

// Reads the horizon, if the version has one, and the items.
fn read_contents(alloc: Global, version: u8, reader: &mut Reader<'_>) -> Result<Bundle, ReadError>
    ensures { Gets (λ b. b) (contents version) result reader.old reader.new }
{
    let runs = has_runs(version);
    let horizon = read_horizon(version, reader)?;
    let items = read_items(alloc, runs, reader)?;
    Ok(Bundle {
        horizon,
        runs,
        items,
    })
}

// Reads the horizon of a bundle, if the version has one.
fn read_horizon(version: u8, reader: &mut Reader<'_>) -> Result<Option<Moment>, ReadError>
    ensures { Gets (λ o. o) (horizon_field version) result reader.old reader.new }
{
    if has_horizon(version) {
        let horizon = Moment::read(reader).ok_or(ReadError::Malformed)?;
        Ok(Some(horizon))
    } else {
        Ok(None)
    }
}

// Reads the items, without runs or with them.
fn read_items(alloc: Global, runs: bool, reader: &mut Reader<'_>) -> Result<Vec<Item>, ReadError>
    ensures { Gets (λ v. v.items) (items_by runs) result reader.old reader.new }
{
    if runs {
        read_pieced(alloc, reader)
    } else {
        read_counted(alloc, reader)
    }
}

// Reads a count of at most 128, and that many items.
fn read_counted(alloc: Global, reader: &mut Reader<'_>) -> Result<Vec<Item>, ReadError>
    ensures { Gets (λ v. v.items) counted_items result reader.old reader.new }
{
    let count = reader.take_u16().ok_or(ReadError::Malformed)?;
    if count > MAX_ITEMS {
        return Err(ReadError::Malformed);
    }
    read_many(alloc, count, reader)
}

impl Spelled for Bundle {
    ghost use Rattle.tk_bundle.specs.Bundle.{bundle};
    ghost use Rattle.tk_bundle.specs.BundleLaws.{bundle_exact};

    ghost format = { bundle };

    fn read_from(alloc: Global, reader: &mut Reader<'_>) -> Result<Bundle, ReadError> {
        let bundle = read_listed(alloc, reader)?;
        if is_ascending(&bundle.items) {
            Ok(bundle)
        } else {
            Err(ReadError::Malformed)
        }
    }

    ghost exact = { bundle_exact };
}

/// States a law: no bundle's bytes begin those of another bundle.
pub fn none_begins_another()
    ensures { (a b : BundleFields) (rest : List ℕ) → bundle.Fits a → bundle.Fits b
        → bundle_bytes a ++ rest ≡ bundle_bytes b → (a ≡ b) × (rest ≡ []) }
{}

/// States a law: the first four bytes of a bundle show which sorts of items are inside.
///
/// A bundle with runs begins with `OTB6`. Another bundle with the registration of a client that
/// keeps its refresh token or has lives, with an access token that was refreshed for one that keeps
/// it, or with a change of a client's secret, begins with `OTB5` if one of its items is a mark,
/// otherwise with `OTB4`. Any other begins with `OTB3` if one of its items is a mark, otherwise
/// with `OTB2` if one is a sign-out, otherwise with `OTB1`.
pub fn versions_told()
    ensures { VersionsTold }
{}
