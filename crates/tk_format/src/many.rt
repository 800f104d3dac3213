//! Reading several values of one type.

ghost use Rattle.std.specs.Prelude.{List, ℕ, Option};
ghost use Rattle.tk_format.specs.Reading.{GetsBy, GetsManyBy};

use crate::{ReadError, Reader};
use std::alloc::Global;

/// A type whose values can be read one after the other.
pub trait FromBytes: Drop {
    /// The value at the front of bytes and the bytes behind it, if the bytes begin with a value.
    ghost value_at: { List ℕ → Option (Self × List ℕ) };

    /// Reads a value from the front. After an error the reader's position is unspecified.
    fn read_from(alloc: Global, reader: &mut Reader<'_>) -> Result<Self, ReadError>
        ensures { GetsBy value_at result reader.old reader.new };
}

/// Reads `count` values. After an error the reader's position is unspecified.
pub fn read_many<T: FromBytes>(
    alloc: Global,
    count: u16,
    reader: &mut Reader<'_>,
) -> Result<Vec<T>, ReadError>
    ensures { GetsManyBy T.value_at count result reader.old reader.new }
{
    let mut items = Vec::new(alloc);
    for _ in 0..count {
        let item = T::read_from(alloc, reader)?;
        items.push(item)?;
    }
    Ok(items)
}
