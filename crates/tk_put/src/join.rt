//! Joins pieces of bytes: `joined`, and `field_line` for a line of a head.

ghost use Rattle.std.specs.Prelude.{◌≡◌, IfOk};
ghost use Rattle.std.specs.Option.{option_copied};
ghost use Rattle.tk_put.specs.Put as spec;

use std::alloc::{AllocError, Global};

/// Joins the pieces in order. The call takes memory once.
///
/// # Errors
///
/// `AllocError` if memory runs out.
pub fn joined(alloc: Global, pieces: &[&[u8]]) -> Result<Vec<u8>, AllocError>
    ensures { IfOk result (λ bytes. bytes.items ≡ spec.joined_text pieces.now) }
{
    let mut bytes = Vec::with_capacity(alloc, length_of(pieces))?;
    for piece in pieces {
        bytes.extend_from_slice(piece)?;
    }
    Ok(bytes)
}

// Returns the length of the pieces together, at most the greatest number.
fn length_of(pieces: &[&[u8]]) -> usize {
    let mut length: usize = 0;
    for piece in pieces {
        length = length.saturating_add(piece.len());
    }
    length
}

/// Returns the line of a field with its end, or no bytes without a value (RFC 9112, 5).
///
/// `name` is the name with the colon and the space behind it. Without a value the call takes no
/// memory.
///
/// # Errors
///
/// `AllocError` if memory runs out.
pub fn field_line(alloc: Global, name: &[u8], value: Option<&[u8]>) -> Result<Vec<u8>, AllocError>
    ensures { IfOk result (λ line. line.items
        ≡ spec.field_line name.now (option_copied value.entry)) }
{
    match value {
        Some(value) => joined(alloc, &[name, value, b"\r\n"]),
        None => Ok(Vec::new(alloc)),
    }
}
