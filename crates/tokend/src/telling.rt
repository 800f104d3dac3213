//! Lines about faults: `say` writes one, and `Steady` repeats an interrupted write.

ghost use Rattle.std.specs.Io.{WritesAtMost};
ghost use Rattle.std.specs.Io.KnownBytes.{WriteAppends};
ghost use Rattle.tk_put.specs.Put.{Prints, joined_text};
ghost use Rattle.tk_edge.specs.Failures.{CountsFailure};
ghost use Rattle.tokend.specs.Telling.{Writes, writer_of};

use std::io::{self, ErrorKind, Write};
use tk_edge::{Failed, Sink, put_whole};

/// Writes the pieces. If the writer fails, it has the beginning of them, and the program goes on.
pub(crate) fn say<F: Sink>(faults: &mut F, pieces: &[&[u8]])
    ensures { Writes (writer_of F.holds F.failed faults.old) (writer_of F.holds F.failed faults.new)
        (joined_text pieces.now) }
{
    let _ = put_pieces(faults, pieces);
}

// Writes the pieces in order. Recurses over the few pieces of a line.
fn put_pieces<F: Sink>(faults: &mut F, pieces: &[&[u8]]) -> Result<(), Failed>
    ensures bytes { Prints result (F.holds faults.old) (F.holds faults.new)
        (joined_text pieces.now) }
    ensures failures { CountsFailure result (F.failed faults.old) (F.failed faults.new) }
{
    let [first, rest @ ..] = pieces else {
        return Ok(());
    };
    match put_whole(faults, first) {
        Ok(()) => put_pieces(faults, rest),
        Err(failed) => Err(failed),
    }
}

/// A writer that repeats an interrupted write.
#[derive(Drop)]
pub(crate) struct Steady<W> {
    /// The wrapped writer.
    pub inner: W,
}

impl<W: Write> Write for Steady<W> {
    ghost contents = { λ s. W.contents s.inner };

    fn write(&mut self, buf: &[u8]) -> io::Result<usize> {
        write_again(&mut self.inner, buf)
    }

    fn flush(&mut self) -> io::Result<()> {
        self.inner.flush()
    }
}

// Writes some of the bytes. An interrupted call is repeated.
fn write_again<W: Write>(output: &mut W, bytes: &[u8]) -> io::Result<usize>
    ensures bound { WritesAtMost result bytes.now }
    ensures bytes { WriteAppends (W.contents output.old) (W.contents output.new) result bytes.now }
{
    for _ in 0..u64::MAX {
        match output.write(bytes) {
            Ok(count) => return Ok(count),
            Err(error) => {
                if error.kind() != ErrorKind::Interrupted {
                    return Err(error);
                }
            }
        }
    }
    Err(io::Error::from(ErrorKind::Other))
}

/// A writer for formatted text, over a sink. No contract speaks of what it writes.
pub(crate) struct Formatted<'a, F> {
    /// The sink that gets the text.
    pub sink: &'a mut F,
}

impl<'a, F: Sink> Write for Formatted<'a, F> {
    fn write(&mut self, buf: &[u8]) -> io::Result<usize> {
        match self.sink.put(buf) {
            Ok(count) => Ok(count),
            Err(_) => Err(io::Error::from(io::ErrorKind::WriteZero)),
        }
    }

    fn flush(&mut self) -> io::Result<()> {
        Ok(())
    }
}
