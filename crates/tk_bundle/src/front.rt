//! Reading the first bundle of many bytes.

ghost use Rattle.std.specs.Prelude.{◌≡◌, ◌≢◌, ◌≤◌, ◌++◌, [], List, ℕ, length, take, IfOk, IsErrOf};
ghost use Rattle.std.specs.Prelude.{Err};
ghost use Rattle.tk_bundle.specs.Bundle.{bundle, bundle_bytes};
ghost use Rattle.tk_bundle.specs.BundleFields.{BundleFields};
ghost use Rattle.tk_bundle.specs.Front as spec;
ghost use Rattle.tk_bundle.specs.Front.{Walks, IsCut, skipped, skipped_many, walk, IsFrontOf};
ghost use Rattle.tk_bundle.specs.declared.error.FrontError.{FrontError as AnyError};

use crate::bundle::{Bundle, MAGIC, MAX_ITEMS};
use crate::error::FrontError;
use crate::version::{has_horizon, is_version};
use std::alloc::Global;
use tk_fact::Fact;
use tk_format::{ReadError, Reader};

// The least number of bytes before the items: the magic, a digit, and a count.
const MIN_HEADER: usize = 6;

// The number of bytes of a horizon.
const HORIZON_BYTES: usize = 8;

/// Reads the bundle at the front of the bytes, and returns it with the number of bytes that it
/// takes.
///
/// The lengths are walked over before any item is read. Bytes behind the bundle are not looked at.
/// Returns `Cut` if the bytes end before the walk does, `Malformed` if they are not the beginning
/// of a bundle, and `Memory` if memory runs out while the items are read.
pub fn read_front(alloc: Global, bytes: &[u8]) -> Result<(Bundle, usize), FrontError>
    // An error of the walk over the lengths is the result. No other bytes are `Cut`.
    ensures walked { (e : AnyError) → walk bytes.now ≡ Err e → result ≡ Err e }
    ensures cut { IsErrOf result FrontError.Cut → IsCut bytes.now }
    ensures found { IfOk result (λ x. (x.1 ≤ length bytes.now) × bundle.Fits x.0
        × (take x.1 bytes.now ≡ bundle_bytes x.0)) }

    // A bundle at the front is read, unless memory runs out.
    ensures only { (b : BundleFields) (rest : List ℕ) → bundle.Fits b
        → bytes.now ≡ bundle_bytes b ++ rest → IsFrontOf result b }

    // The beginning of a bundle is `Cut`, unless it is the whole bundle.
    ensures torn { (b : BundleFields) (rest : List ℕ) → bundle.Fits b
        → bytes.now ++ rest ≡ bundle_bytes b → rest ≢ [] → result ≡ Err FrontError.Cut }
{
    let mut reader = Reader::new(bytes);
    walk(&mut reader)?;
    let count = bytes.len() - reader.len();
    let (front, _) = bytes.split_at(count);
    match Bundle::read(alloc, front) {
        Ok(bundle) => Ok((bundle, count)),
        Err(error) => Err(unread(error)),
    }
}

// Returns the error of a front that has the lengths of a bundle but can't be read.
fn unread(error: ReadError) -> FrontError
    ensures { result ≡ spec.unread error }
{
    match error {
        ReadError::Malformed => FrontError::Malformed,
        ReadError::Memory => FrontError::Memory,
    }
}

// Walks over the magic, the version, the horizon if the version has one, the count, and that number
// of items.
fn walk(reader: &mut Reader<'_>) -> Result<(), FrontError>
    ensures { Walks result (walk reader.old) reader.new }
{
    if reader.len() < MIN_HEADER {
        return Err(FrontError::Cut);
    }
    let front = reader.take_bytes(MAGIC.len()).ok_or(FrontError::Cut)?;
    let version = reader.take_u8().ok_or(FrontError::Cut)?;
    if front != MAGIC {
        return Err(FrontError::Malformed);
    }
    if !is_version(version) {
        return Err(FrontError::Malformed);
    }
    reader
        .take_bytes(horizon_size(version))
        .ok_or(FrontError::Cut)?;
    let count = reader.take_u16().ok_or(FrontError::Cut)?;
    if count > MAX_ITEMS {
        return Err(FrontError::Malformed);
    }
    skip_many(count, reader)
}

// Returns the number of bytes of the horizon, if the version has one.
fn horizon_size(version: u8) -> usize
    ensures { result ≡ spec.horizon_size version }
{
    if has_horizon(version) {
        HORIZON_BYTES
    } else {
        0
    }
}

// Walks over the given number of items.
fn skip_many(count: u16, reader: &mut Reader<'_>) -> Result<(), FrontError>
    ensures { Walks result (skipped_many count reader.old) reader.new }
{
    for _ in 0..count {
        skip(reader)?;
    }
    Ok(())
}

// Walks over one item behind its length.
fn skip(reader: &mut Reader<'_>) -> Result<(), FrontError>
    ensures { Walks result (skipped reader.old) reader.new }
{
    let count = reader.take_u16().ok_or(FrontError::Cut)?;
    if count as usize > Fact::MAX_BYTES {
        return Err(FrontError::Malformed);
    }
    reader.take_bytes(count as usize).ok_or(FrontError::Cut)?;
    Ok(())
}
