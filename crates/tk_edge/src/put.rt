//! Writes whole pieces into any sink (`put_whole`), and has a sink that drops them (`Discard`).

ghost use Rattle.tk_put.specs.Put.{Prints};
ghost use Rattle.tk_edge.specs.Failures.{CountsFailure};

use crate::device::{Failed, Sink};

/// Puts all of the bytes. If the sink fails, it has taken only their beginning.
pub fn put_whole<S: Sink>(sink: &mut S, bytes: &[u8]) -> Result<(), Failed>
    ensures bytes { Prints result (S.holds sink.old) (S.holds sink.new) bytes.now }
    ensures failures { CountsFailure result (S.failed sink.old) (S.failed sink.new) }
{
    let mut at = 0;
    'pieces: while at < bytes.len() {
        match sink.put(&bytes[at..]) {
            Ok(count) => at += count,
            Err(failed) => return Err(failed),
        }
    }
    Ok(())
}

/// A sink that takes all bytes and drops them. Used when the server runs without `--log`.
#[derive(Drop)]
pub struct Discard;

impl Sink for Discard {
    ghost use Rattle.std.specs.Prelude.{None};

    ghost holds = { λ _. None };

    ghost flushed = { λ _. None };

    ghost failed = { λ _. 0 };

    fn put(&mut self, piece: &[u8]) -> Result<usize, Failed> {
        Ok(piece.len())
    }

    fn flush(&mut self) -> Result<(), Failed> {
        Ok(())
    }

    fn failures(&self) -> u64 {
        0
    }
}
