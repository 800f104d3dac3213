//! The script: `read_script` reads the input, and `read_events` makes its lines events.

ghost use Rattle.std.specs.Prelude.{◌≡◌, ◌≤◌, ◌<◌, ◌^◌, ◌↔◌, ℕ, IfOk, IfErr, IfSome, length};
ghost use Rattle.std.specs.Prelude.{slice_get, vec_len, IsTrue};
ghost use Rattle.tk_world.specs.Line.{HasWords};
ghost use Rattle.tokend.specs.Script.{max_length, lines_of, AreEvents, AreShort, IsFaultOf};
ghost use Rattle.tokend.specs.Script.{IsInputFault, IsTooLong, words_at};

use crate::fault::Fault;
use std::alloc::Global;
use std::io::Read;
use tk_format::ReadError;
use tk_world::Event;

/// The greatest length of a script, in bytes.
pub const MAX_SCRIPT: usize = 1_048_576;

/// How many bytes of an input or an old log are read at once, at most.
pub(crate) const READ_AT_ONCE: usize = 8_192;

/// Reads all of the input, up to the limit.
///
/// # Errors
///
/// `CannotRead` if the input fails or is interrupted, whatever it gave before. `ScriptTooLong` if
/// the input is longer than the limit. `Memory` if memory runs out.
pub(crate) fn read_script<I: Read>(alloc: Global, input: &mut I) -> Result<Vec<u8>, Fault>
    ensures short { IfOk result (λ script. vec_len script ≤ max_length) }
    ensures whole { IfOk result
        (λ script. IfSome (I.remaining input.old) (λ bytes. script.items ≡ bytes)) }
    ensures fault { IfErr result (IsInputFault (I.remaining input.old)) }
{
    let mut script = Vec::new(alloc);
    let mut piece = [0u8; READ_AT_ONCE];
    while script.len() <= MAX_SCRIPT {
        let count = input.read(&mut piece)?;
        if count == 0 {
            return Ok(script);
        }
        script.extend_from_slice(&piece[..count])?;
    }
    Err(Fault::ScriptTooLong)
}

/// Reads the events of a script's lines, in order.
///
/// Lines end with LF, which the last line may lack. Empty lines, and lines that begin with `#`, are
/// no events.
///
/// # Errors
///
/// `BadLine` with the first line that is no event, or whose request has more than `longest` bytes.
/// `Memory` if memory runs out.
pub(crate) fn read_events(
    alloc: Global,
    script: &[u8],
    longest: Option<u64>,
) -> Result<Vec<Event>, Fault>
    requires { length script.now ≤ max_length }
    ensures found { IfOk result (λ events. AreEvents (lines_of script.now) events.items) }
    ensures short { IfOk result (λ events. AreShort longest events.items) }
    ensures words { IfOk result (λ events. (k : ℕ)
        → IfSome (slice_get events.items k) (HasWords (words_at k))) }
    ensures fault { IfErr result (IsFaultOf longest script.now) }
{
    let mut events = Vec::new(alloc);
    for (at, line) in script.split(|b| *b == b'\n').enumerate() {
        if matches!(line, [] | [b'#', ..]) {
            continue;
        }
        match Event::read_line(alloc, line, words_of(events.len() as u64)) {
            Ok(event) if is_too_long(&event, longest) => return Err(Fault::BadLine(at as u64 + 1)),
            Ok(event) => events.push(event)?,
            Err(ReadError::Malformed) => return Err(Fault::BadLine(at as u64 + 1)),
            Err(ReadError::Memory) => return Err(Fault::Memory),
        }
    }
    Ok(events)
}

// Returns whether a request has more bytes than the limit, if there is one.
fn is_too_long(event: &Event, longest: Option<u64>) -> bool
    ensures { IsTrue result ↔ IsTooLong longest event.now }
{
    match (event, longest) {
        (Event::Request { bytes, .. }, Some(longest)) => bytes.len() as u64 > longest,
        _ => false,
    }
}

// Returns the random words of an event, by its index among the events.
fn words_of(event: u64) -> [u64; 6]
    requires { event < 2 ^ 60 }
    ensures { result ≡ words_at event }
{
    let first = 6 * event;
    [first, first + 1, first + 2, first + 3, first + 4, first + 5]
}
