//! Prints what an input holds: `print_lines`.

ghost use Rattle.std.specs.Prelude.{◌≡◌, ◌≤◌, IfErr, IfOk, MatchResult, drop, length};
ghost use Rattle.tk_listing.specs.Pieces.{piece_lines};
ghost use Rattle.tk_listing.specs.Printing as spec;
ghost use Rattle.tk_listing.specs.Printing.{IsReadFault, PrintsFirst, PrintsInput, PrintsMore};
ghost use Rattle.tk_listing.specs.Printing.{PrintsPiece, PrintsWhole, ReadsMore};

use crate::lines::{put_items, put_vector};
use crate::piece::{Piece, read_piece};
use std::alloc::{AllocError, Global};
use std::io::{Read, Write};
use tk_bundle::FrontError;
use tk_format::Writer;
use tk_put::{put_all, rest_of};

// How many bytes of an input are read at once, at most.
const READ_AT_ONCE: usize = 65_536;

/// Why the lines of an input weren't printed to its end.
#[derive(Clone, Copy)]
pub enum PrintFault {
    /// At this offset, in bytes from the beginning of the input, is no bundle and no vector. The
    /// lines of what is before it were printed.
    Malformed(u64),
    /// The input failed.
    CannotRead,
    /// Memory ran out.
    Memory,
    /// The output failed. It has the beginning of the lines.
    Output,
}

/// Why no more bundles and vectors at the front of bytes were printed.
#[derive(Clone, Copy)]
pub(crate) enum End {
    /// The bytes end, or end before a bundle or a vector does. More bytes may follow.
    More,
    /// The rest begins with no bundle and no vector.
    Malformed,
    /// Memory ran out.
    Memory,
    /// The output failed.
    Output,
}

/// How printing the first bundle or vector of bytes ended.
#[derive(Clone, Copy)]
pub(crate) enum Step {
    /// Its lines were printed. It takes this number of bytes.
    Printed(usize),
    /// The output failed. The bundle or the vector takes this number of bytes.
    Failed(usize),
    /// The bytes end before it does.
    Cut,
    /// The bytes begin with no bundle and no vector.
    Malformed,
    /// Memory ran out.
    Memory,
}

/// Prints a line for each fact, each mark and each entry of a vector that an input holds, in order.
/// Returns how many bytes at the input's end are the beginning of a bundle or vector that was cut.
///
/// The input is read in pieces. Of its bytes those of one bundle or vector are kept at most, and
/// those of one read. The call doesn't flush the output.
///
/// # Errors
///
/// See [`PrintFault`]. The lines of all bundles and vectors before the fault were printed.
pub fn print_lines<I: Read, O: Write>(
    alloc: Global,
    input: &mut I,
    output: &mut O,
) -> Result<u64, PrintFault>
    ensures { PrintsInput (I.remaining input.old) result (O.contents output.old)
        (O.contents output.new) }
{
    let mut buffer = Vec::new(alloc);
    let mut offset = 0u64;
    for _ in 0..u64::MAX {
        match read_more(input, &mut buffer) {
            Ok(true) => {}
            Ok(false) => return Ok(buffer.len() as u64),
            Err(fault) => return Err(fault),
        }
        match print_more(alloc, buffer, offset, output) {
            Ok(left) => (buffer, offset) = left,
            Err(fault) => return Err(fault),
        }
    }
    Err(PrintFault::CannotRead)
}

// Reads once, behind the bytes of the buffer. Returns whether there was a byte.
fn read_more<I: Read>(input: &mut I, buffer: &mut Vec<u8>) -> Result<bool, PrintFault>
    ensures grown { IfOk result
        (λ more. ReadsMore more (I.remaining input.old) (I.remaining input.new)
        buffer.old.items buffer.new.items) }
    ensures fault { IfErr result IsReadFault }
{
    let mut piece = [0u8; READ_AT_ONCE];
    let Ok(count) = input.read(&mut piece) else {
        return Err(PrintFault::CannotRead);
    };
    match buffer.extend_from_slice(&piece[..count]) {
        Ok(()) => Ok(count != 0),
        Err(_) => Err(PrintFault::Memory),
    }
}

// Prints the whole bundles and vectors of the buffer, which is at this offset of the input. Returns
// the bytes behind them, and their offset.
fn print_more<O: Write>(
    alloc: Global,
    buffer: Vec<u8>,
    offset: u64,
    output: &mut O,
) -> Result<(Vec<u8>, u64), PrintFault>
    ensures { MatchResult result
        (λ left. PrintsMore buffer.items offset (Ok (left.0.items, left.1))
        (O.contents output.old) (O.contents output.new))
        (λ fault. PrintsMore buffer.items offset (Err fault) (O.contents output.old)
        (O.contents output.new)) }
{
    let (used, end) = print_pieces(alloc, &buffer, output);
    match outcome(end, offset.checked_add(used as u64)) {
        Ok(place) => match without_front(alloc, buffer, used) {
            Ok(rest) => Ok((rest, place)),
            Err(_) => Err(PrintFault::Memory),
        },
        Err(fault) => Err(fault),
    }
}

// Returns the offset at which reading goes on, or the fault that ends it. An input has fewer than
// 2^64 bytes.
fn outcome(end: End, place: Option<u64>) -> Result<u64, PrintFault>
    ensures { result ≡ spec.outcome end place }
{
    match (end, place) {
        (End::More, Some(place)) => Ok(place),
        (End::Malformed, Some(place)) => Err(PrintFault::Malformed(place)),
        (End::More | End::Malformed, None) => Err(PrintFault::CannotRead),
        (End::Memory, _) => Err(PrintFault::Memory),
        (End::Output, _) => Err(PrintFault::Output),
    }
}

// Returns the bytes behind the first `used` ones.
fn without_front(alloc: Global, bytes: Vec<u8>, used: usize) -> Result<Vec<u8>, AllocError>
    requires { used ≤ length bytes.items }
    ensures { IfOk result (λ rest. rest.items ≡ drop used bytes.items) }
{
    if used == 0 {
        return Ok(bytes);
    }
    Vec::from_slice(alloc, &bytes[used..])
}

// Prints the bundles and vectors at the front of the bytes. Returns how many bytes they take, and
// why no more were printed. If the output failed, the bytes of what was being printed count.
fn print_pieces<O: Write>(alloc: Global, bytes: &[u8], output: &mut O) -> (usize, End)
    ensures { PrintsWhole bytes.now result.0 result.1 (O.contents output.old)
        (O.contents output.new) }
{
    let mut used = 0;
    while used < bytes.len() {
        match print_first(alloc, rest_of(bytes, used), output) {
            Step::Printed(count) => used += count,
            Step::Failed(count) => return (used + count, End::Output),
            Step::Cut => return (used, End::More),
            Step::Malformed => return (used, End::Malformed),
            Step::Memory => return (used, End::Memory),
        }
    }
    (used, End::More)
}

// Prints the first bundle or vector of the bytes.
fn print_first<O: Write>(alloc: Global, bytes: &[u8], output: &mut O) -> Step
    ensures { PrintsFirst bytes.now result (O.contents output.old) (O.contents output.new) }
{
    match read_piece(alloc, bytes) {
        Ok((piece, count)) => print_piece(alloc, &piece, count, output),
        Err(FrontError::Cut) => Step::Cut,
        Err(FrontError::Malformed) => Step::Malformed,
        Err(FrontError::Memory) => Step::Memory,
    }
}

// Prints a bundle or a vector, which takes this number of bytes.
fn print_piece<O: Write>(alloc: Global, piece: &Piece, count: usize, output: &mut O) -> Step
    ensures { PrintsPiece piece.now count result (O.contents output.old) (O.contents output.new) }
{
    let Ok(text) = text_of(alloc, piece) else {
        return Step::Memory;
    };
    match put_all(output, &[text.as_slice()]) {
        Ok(()) => Step::Printed(count),
        Err(_) => Step::Failed(count),
    }
}

// Returns the lines of a bundle or a vector.
fn text_of(alloc: Global, piece: &Piece) -> Result<Vec<u8>, AllocError>
    ensures { IfOk result (λ text. text.items ≡ piece_lines piece.now) }
{
    let mut writer = Writer::new(alloc);
    match piece {
        Piece::Bundle(bundle) => put_items(&mut writer, &bundle.horizon(), bundle.items())?,
        Piece::Vector(vector) => put_vector(&mut writer, vector)?,
    }
    Ok(writer.into_bytes())
}
