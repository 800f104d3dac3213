//! Writes pieces to an output: `put_all`. A failed output has the beginning of the pieces.

ghost use Rattle.tk_put.specs.Put.{Prints, joined_text};

use crate::rest::rest_of;
use std::io::{self, ErrorKind, Write};

/// Writes the pieces in order, in as many calls as the output needs.
///
/// The call takes no memory and doesn't flush. An interrupted call is repeated.
///
/// # Errors
///
/// The output's own failure, or `WriteZero` if a call takes no byte. The output then has the
/// beginning of the pieces.
pub fn put_all<O: Write>(output: &mut O, pieces: &[&[u8]]) -> io::Result<()>
    ensures { Prints result (O.contents output.old) (O.contents output.new)
        (joined_text pieces.now) }
{
    for piece in pieces {
        // A match instead of `?`, because the goals of `?` have no names.
        match put(output, piece) {
            Ok(()) => {}
            Err(error) => return Err(error),
        }
    }
    Ok(())
}

// Writes the bytes, in as many calls as the output needs. An interrupted call is repeated.
fn put<O: Write>(output: &mut O, bytes: &[u8]) -> io::Result<()>
    ensures { Prints result (O.contents output.old) (O.contents output.new) bytes.now }
{
    let mut written = 0;
    for _ in 0..u64::MAX {
        let rest = rest_of(bytes, written);
        if rest.is_empty() {
            return Ok(());
        }
        match output.write(rest) {
            Ok(0) => return Err(io::Error::from(ErrorKind::WriteZero)),
            Ok(count) => written += count,
            Err(error) => {
                if error.kind() != ErrorKind::Interrupted {
                    return Err(error);
                }
            }
        }
    }
    Err(io::Error::from(ErrorKind::Other))
}
