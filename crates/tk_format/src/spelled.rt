//! Reading a value that takes all of the bytes.

ghost use Rattle.std.specs.Prelude.{◌≡◌, ◌≢◌, IfOk, IsErrOf};
ghost use Rattle.tk_format.specs.Exact.{IsExact};
ghost use Rattle.tk_format.specs.Format.{Format};
ghost use Rattle.tk_format.specs.Reading.{Gets, GetsAll};

use crate::{ReadError, Reader};
use std::alloc::Global;

/// A type with one format, and the law of that format.
pub trait Spelled: Drop {
    /// The format of the values.
    ghost format: { Format Self };

    /// Reads a value from the front. Returns `Malformed` if no value is spelled there, and `Memory`
    /// if memory runs out. After an error the reader's position is unspecified.
    fn read_from(alloc: Global, reader: &mut Reader<'_>) -> Result<Self, ReadError>
        ensures { Gets (λ x. x) format result reader.old reader.new };

    ghost exact: { IsExact format };
}

/// Returns the value that all of the bytes together spell. Returns `Malformed` if they spell no
/// value, and `Memory` if memory runs out.
pub fn read_all<T: Spelled>(alloc: Global, bytes: &[u8]) -> Result<T, ReadError>
    ensures found { IfOk result (λ x. T.format.Fits x × (bytes.now ≡ T.format.spell x)) }
    ensures malformed { IsErrOf result ReadError.Malformed →
        (x : T) → T.format.Fits x → bytes.now ≢ T.format.spell x }

    // This clause states the result by what the format reads.
    ensures exact { GetsAll (λ x. x) T.format result bytes.now }
{
    read_whole(alloc, bytes)
}

fn read_whole<T: Spelled>(alloc: Global, bytes: &[u8]) -> Result<T, ReadError>
    ensures { GetsAll (λ x. x) T.format result bytes.now }
{
    let mut reader = Reader::new(bytes);
    let value = T::read_from(alloc, &mut reader)?;
    if reader.is_empty() {
        Ok(value)
    } else {
        Err(ReadError::Malformed)
    }
}
