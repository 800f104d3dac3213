//! A bundle or a vector at the front of bytes.

ghost use Rattle.std.specs.Prelude.{◌≡◌, ◌≤◌, false, length, true};
ghost use Rattle.tk_listing.specs.Pieces as spec;
ghost use Rattle.tk_listing.specs.Pieces.{ReadsPiece};

use std::alloc::Global;
use tk_bundle::{Bundle, FrontError, read_front};
use tk_format::ReadError;
use tk_vector::VersionVector;

// The bytes that begin a vector.
const MAGIC: &[u8] = b"OTV1";

// What stands one behind the other in an input.
#[derive(Drop)]
pub(crate) enum Piece {
    /// A bundle.
    Bundle(Bundle),
    /// A version vector.
    Vector(VersionVector),
}

// Reads the bundle or the vector at the front of the bytes, and returns it with the number of
// bytes that it takes.
//
// Bytes that begin as a vector does are read as a vector, all others as a bundle.
//
// # Errors
//
// `Cut` if the bytes end before the bundle or the vector does. `Malformed` if neither is at the
// front. `Memory` if memory runs out.
pub(crate) fn read_piece(alloc: Global, bytes: &[u8]) -> Result<(Piece, usize), FrontError>
    ensures { ReadsPiece bytes.now result }
{
    if is_vector(bytes) {
        read_vector(alloc, bytes)
    } else {
        read_bundle(alloc, bytes)
    }
}

// Returns whether the bytes begin as a vector does.
fn is_vector(bytes: &[u8]) -> bool
    ensures { result ≡ spec.is_vector bytes.now }
{
    let front = if bytes.len() < 4 { bytes } else { &bytes[..4] };
    front == MAGIC
}

// Reads the bundle at the front of the bytes.
fn read_bundle(alloc: Global, bytes: &[u8]) -> Result<(Piece, usize), FrontError>
    requires { spec.is_vector bytes.now ≡ false }
    ensures { ReadsPiece bytes.now result }
{
    match read_front(alloc, bytes) {
        Ok((bundle, count)) => Ok((Piece::Bundle(bundle), count)),
        Err(error) => Err(error),
    }
}

// Reads the vector at the front of the bytes.
fn read_vector(alloc: Global, bytes: &[u8]) -> Result<(Piece, usize), FrontError>
    requires { spec.is_vector bytes.now ≡ true }
    ensures { ReadsPiece bytes.now result }
{
    if bytes.len() < 6 {
        return Err(FrontError::Cut);
    }
    let size = vector_size(bytes);
    if bytes.len() < size {
        return Err(FrontError::Cut);
    }
    let (front, _) = bytes.split_at(size);
    match VersionVector::read(alloc, front) {
        Ok(vector) => Ok((Piece::Vector(vector), size)),
        Err(ReadError::Malformed) => Err(FrontError::Malformed),
        Err(ReadError::Memory) => Err(FrontError::Memory),
    }
}

// Returns the number of bytes of a vector: six, and ten for each entry that it counts.
fn vector_size(bytes: &[u8]) -> usize
    requires { 6 ≤ length bytes.now }
    ensures { result ≡ spec.vector_size bytes.now }
{
    6 + 10 * (256 * bytes[4] as usize + bytes[5] as usize)
}
