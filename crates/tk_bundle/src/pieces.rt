//! Reading the items of a bundle with runs.

ghost use Rattle.std.specs.Prelude.{◌≡◌, ◌+◌, ◌-◌, ◌++◌, ◌≤◌, length, min, suc, OnOk, IfOk};
ghost use Rattle.tk_format.specs.Reading.{Gets};
ghost use Rattle.tk_handle.specs.Ranges.{max_serial};
ghost use Rattle.tk_bundle.specs.PieceBytes.{are_runs, counted_pieces, max_run_items, pieced_items};
ghost use Rattle.tk_bundle.specs.Pieces as spec;
ghost use Rattle.tk_bundle.specs.Pieces.{marks_from};

use crate::bundle::MAX_ITEMS;
use crate::item::Item;
use crate::piece::{Piece, goes_on, is_stretch, last_mark};
use std::alloc::{AllocError, Global};
use tk_format::{ReadError, Reader, read_many};
use tk_handle::{Dot, Serial};

/// The greatest number of items in a bundle with runs (own).
pub(crate) const MAX_RUN_ITEMS: usize = 1024;

// Reads a count of at most 128 and that many pieces, and returns their items.
pub(crate) fn read_pieced(alloc: Global, reader: &mut Reader<'_>) -> Result<Vec<Item>, ReadError>
    ensures { Gets (λ v. v.items) pieced_items result reader.old reader.new }
{
    let pieces = read_counted_pieces(alloc, reader)?;
    if !are_runs(&pieces) {
        return Err(ReadError::Malformed);
    }
    let items = expand(alloc, pieces)?;
    Ok(items)
}

// Reads a count of at most 128, and that many pieces.
fn read_counted_pieces(alloc: Global, reader: &mut Reader<'_>) -> Result<Vec<Piece>, ReadError>
    ensures { Gets (λ v. v.items) counted_pieces result reader.old reader.new }
{
    let count = reader.take_u16().ok_or(ReadError::Malformed)?;
    if count > MAX_ITEMS {
        return Err(ReadError::Malformed);
    }
    read_many(alloc, count, reader)
}

// Returns whether the pieces are those of a bundle with runs.
fn are_runs(pieces: &[Piece]) -> bool
    ensures { result ≡ are_runs pieces.now }
{
    let count = item_count(pieces);
    is_proper(pieces) && count <= MAX_RUN_ITEMS && pieces.len() < count
}

// Returns whether no piece continues the one before it.
fn is_proper(pieces: &[Piece]) -> bool
    ensures { result ≡ spec.is_proper pieces.now }
{
    let mut last: Option<Dot> = None;
    for piece in pieces {
        if goes_on(last, piece) {
            return false;
        }
        if !is_stretch(piece) {
            return false;
        }
        last = last_mark(piece);
    }
    true
}

// Returns the number of items of the pieces, or 1,025 if they have more.
fn item_count(pieces: &[Piece]) -> usize
    ensures { result ≡ min (length (spec.expanded pieces.now)) (max_run_items + 1) }
{
    let mut count: usize = 0;
    for piece in pieces {
        count = with_size(count, piece);
    }
    count
}

// Returns a number of items and those of a piece, or 1,025 if they are more.
fn with_size(count: usize, piece: &Piece) -> usize
    requires { count ≤ max_run_items + 1 }
    ensures { result ≡ min (count + length (spec.piece_items piece.now)) (max_run_items + 1) }
{
    let size = size_of(piece).min(MAX_RUN_ITEMS as u64 + 1) as usize;
    (count + size).min(MAX_RUN_ITEMS + 1)
}

// Returns the number of items of a piece.
fn size_of(piece: &Piece) -> u64
    ensures { result ≡ length (spec.piece_items piece.now) }
{
    match piece {
        Piece::Fact(_) => 1,
        Piece::Marks(first, last) => last.number().saturating_sub(first.serial()) + 1,
    }
}

// Returns the items of the pieces.
fn expand(alloc: Global, pieces: Vec<Piece>) -> Result<Vec<Item>, AllocError>
    ensures { IfOk result (λ items. items.items ≡ spec.expanded pieces.items) }
{
    let mut items = Vec::new(alloc);
    for piece in pieces {
        push_piece(&mut items, piece)?;
    }
    Ok(items)
}

// Adds the items of a piece.
fn push_piece(items: &mut Vec<Item>, piece: Piece) -> Result<(), AllocError>
    ensures { OnOk result (items.new.items ≡ items.old.items ++ spec.piece_items piece) }
{
    match piece {
        Piece::Fact(fact) => {
            items.push(Item::of_fact(fact))?;
            Ok(())
        }
        Piece::Marks(first, last) => push_marks(items, first, last),
    }
}

// Adds the marks from a dot to a serial of its region.
fn push_marks(items: &mut Vec<Item>, first: Dot, last: Serial) -> Result<(), AllocError>
    ensures { OnOk result (items.new.items
        ≡ items.old.items ++ marks_from first (suc (last - first.serial))) }
{
    let count = last.number().saturating_sub(first.serial()) + 1;
    for offset in 0..count {
        items.push(Item::mark(dot_behind(first, offset)))?;
    }
    Ok(())
}

// Returns the dot that is `offset` dots behind another in its region.
fn dot_behind(first: Dot, offset: u64) -> Dot
    requires { first.serial + offset ≤ max_serial }
    ensures { result ≡ record { region = first.region; serial = first.serial + offset } }
{
    match Dot::new(first.region(), first.serial() + offset) {
        Some(dot) => dot,
        None => unreachable!("the serial is in its range"),
    }
}
