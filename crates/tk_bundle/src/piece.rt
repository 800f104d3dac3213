//! Pieces: what a bundle with runs spells one after another. A run of marks is one piece.

use tk_fact::Fact;
use tk_handle::{Dot, Serial};

// A fact, or the marks from a dot to a serial of its region. A lone mark ends at its own serial.
#[derive(Drop)]
pub(crate) enum Piece {
    Fact(Fact),
    Marks(Dot, Serial),
}

ghost use Rattle.std.specs.Prelude.{◌≡◌};
ghost use Rattle.std.specs.Option.{option_map};
ghost use Rattle.tk_format.specs.Format.{whole};
ghost use Rattle.tk_handle.specs.DotBytes.{dot_field};
ghost use Rattle.tk_bundle.specs.PieceBytes.{GetsPiece, has_run_kind, lone, run, run_piece};
ghost use Rattle.tk_bundle.specs.Pieces as spec;

use crate::item::{DOT_BYTES, read_dot};
use std::alloc::Global;
use tk_format::{FromBytes, ReadError, Reader};

/// The number behind the first dot of a run, where a fact has the number of its kind (own). No kind
/// of fact has this number.
pub(crate) const RUN_KIND: u8 = 14;

// A piece behind its length, as bundles contain it.
impl FromBytes for Piece {
    ghost use Rattle.tk_bundle.specs.PieceBytes.{piece};

    ghost value_at = { piece.read };

    fn read_from(alloc: Global, reader: &mut Reader<'_>) -> Result<Piece, ReadError> {
        let Some(bytes) = reader.take_text() else {
            return Err(ReadError::Malformed);
        };
        if bytes.len() > Fact::MAX_BYTES {
            return Err(ReadError::Malformed);
        }
        read_piece(alloc, bytes)
    }
}

// Reads a piece from all of the bytes.
fn read_piece(alloc: Global, bytes: &[u8]) -> Result<Piece, ReadError>
    ensures { GetsPiece result bytes.now }
{
    if bytes.len() == DOT_BYTES as usize {
        return lone_mark(bytes).ok_or(ReadError::Malformed);
    }
    if has_run_kind(bytes) {
        return read_run(bytes).ok_or(ReadError::Malformed);
    }
    Ok(Piece::Fact(Fact::read(alloc, bytes)?))
}

// Reads a lone mark from all of the bytes.
fn lone_mark(bytes: &[u8]) -> Option<Piece>
    ensures { result ≡ option_map lone (whole dot_field bytes.now) }
{
    let dot = read_dot(bytes)?;
    Some(Piece::Marks(dot, serial_of(dot)))
}

// Returns the serial of a dot.
fn serial_of(dot: Dot) -> Serial
    ensures { result ≡ dot.serial }
{
    match Serial::new(dot.serial()) {
        Some(serial) => serial,
        None => unreachable!("the serial of a dot is in its range"),
    }
}

// Returns whether the byte behind a dot is the number of a run.
fn has_run_kind(bytes: &[u8]) -> bool
    ensures { result ≡ has_run_kind bytes.now }
{
    match bytes.get(DOT_BYTES as usize) {
        Some(kind) => *kind == RUN_KIND,
        None => false,
    }
}

// Reads a run from all of the bytes.
fn read_run(bytes: &[u8]) -> Option<Piece>
    ensures { result ≡ option_map run_piece (whole run bytes.now) }
{
    let mut reader = Reader::new(bytes);
    let first = Dot::read(&mut reader)?;
    reader.take_magic(&[RUN_KIND])?;
    let last = Serial::new(reader.take_u64()?)?;
    if first.serial() < last.number() && reader.is_empty() {
        Some(Piece::Marks(first, last))
    } else {
        None
    }
}

// Returns whether a dot is the one behind another in its region.
fn follows(before: Dot, dot: Dot) -> bool
    ensures { result ≡ spec.follows before dot }
{
    before.region().number() == dot.region().number() && before.serial() + 1 == dot.serial()
}

// Returns whether a dot has a mark that follows the last mark.
pub(crate) fn continues_at(last: Option<Dot>, dot: Dot, marked: bool) -> bool
    ensures { result ≡ spec.continues_at last dot marked }
{
    match last {
        Some(before) => marked && follows(before, dot),
        None => false,
    }
}

// Returns the dot, if it has a mark.
pub(crate) fn mark_at_end(dot: Dot, marked: bool) -> Option<Dot>
    ensures { result ≡ spec.mark_at_end dot marked }
{
    if marked { Some(dot) } else { None }
}

// Returns the last mark of a piece, if it is one of marks.
pub(crate) fn last_mark(piece: &Piece) -> Option<Dot>
    ensures { result ≡ spec.last_mark piece.now }
{
    match piece {
        Piece::Fact(_) => None,
        Piece::Marks(first, last) => Dot::new(first.region(), last.number()),
    }
}

// Returns whether a piece continues the last mark.
pub(crate) fn goes_on(last: Option<Dot>, piece: &Piece) -> bool
    ensures { result ≡ spec.continues last (spec.first_item piece.now) }
{
    match piece {
        Piece::Fact(fact) => continues_at(last, fact.dot, false),
        Piece::Marks(first, _) => continues_at(last, *first, true),
    }
}

// Returns whether the last mark of a piece isn't before its first.
pub(crate) fn is_stretch(piece: &Piece) -> bool
    ensures { result ≡ spec.is_stretch piece.now }
{
    match piece {
        Piece::Fact(_) => true,
        Piece::Marks(first, last) => first.serial() <= last.number(),
    }
}
