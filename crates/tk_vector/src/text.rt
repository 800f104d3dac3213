//! The text of a version vector.

ghost use Rattle.std.specs.Prelude.{◌≡◌, IfOk, IsErrOf};
ghost use Rattle.tk_vector.specs.VectorText.{AreNoDots, IsDotsText, IsNoVectorText, IsVectorText};
ghost use Rattle.tk_vector.specs.VectorText.{vector_of};

use crate::VersionVector;
use std::alloc::{AllocError, Global};
use tk_format::ReadError;
use tk_handle::Dot;

impl VersionVector {
    /// Returns the vector of a text.
    ///
    /// The text is `-` for the empty vector, or entries `R:S` joined by commas. Regions rise, and
    /// numbers are decimals without leading zeros, serials from 1. Returns `Malformed` if the text
    /// is no such text, and `Memory` if memory runs out.
    pub fn read_text(alloc: Global, text: &[u8]) -> Result<VersionVector, ReadError>
        ensures found { IfOk result (IsVectorText text.now) }
        ensures malformed { IsErrOf result ReadError.Malformed → IsNoVectorText text.now }
    {
        if text == b"-".as_slice() {
            return Ok(VersionVector::new(alloc));
        }
        let dots = dots(alloc, text)?;
        Ok(raised_by(alloc, &dots)?)
    }
}

// Returns the dots that the text joins by commas. Their regions must rise.
fn dots(alloc: Global, text: &[u8]) -> Result<Vec<Dot>, ReadError>
    ensures found { IfOk result (λ dots. IsDotsText text.now dots.items) }
    ensures malformed { IsErrOf result ReadError.Malformed → AreNoDots text.now }
{
    let mut dots: Vec<Dot> = Vec::new(alloc);
    for entry in text.split(|b| *b == b',') {
        dots.push(Dot::read_text(entry).ok_or(ReadError::Malformed)?)?;
    }
    if dots.is_sorted_by(|one, next| one.region() < next.region()) {
        Ok(dots)
    } else {
        Err(ReadError::Malformed)
    }
}

// Returns the vector that has each dot's serial at its region.
fn raised_by(alloc: Global, dots: &[Dot]) -> Result<VersionVector, AllocError>
    ensures { IfOk result (λ vector. vector ≡ vector_of dots.now) }
{
    let mut vector = VersionVector::new(alloc);
    for dot in dots {
        vector.raise(dot.region(), dot.serial())?;
    }
    Ok(vector)
}
