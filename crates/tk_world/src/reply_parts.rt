//! The parts of a reply that are printed: `location_in` and `body_in` find them in its bytes.

ghost use Rattle.std.specs.Prelude.{◌≡◌, ◌≤◌, drop, length};
ghost use Rattle.std.specs.Option.{option_copied};
ghost use Rattle.tk_world.specs.Printed as spec;

use tk_put::rest_of;

/// Returns the value of the reply's `Location`.
pub(crate) fn location_in(bytes: &[u8]) -> Option<&[u8]>
    ensures { option_copied result ≡ spec.location_in bytes.now }
{
    match behind(before(bytes, b"\r\n\r\n"), b"\r\nLocation: ") {
        Some(line) => Some(before(line, b"\r\n")),
        None => None,
    }
}

/// Returns the bytes after the reply's empty line.
pub(crate) fn body_in(bytes: &[u8]) -> &[u8]
    ensures { result.now ≡ spec.body_in bytes.now }
{
    match behind(bytes, b"\r\n\r\n") {
        Some(body) => body,
        None => &[],
    }
}

// Returns the bytes before the first occurrence of a mark, or all bytes without one.
fn before<'a>(bytes: &'a [u8], mark: &[u8]) -> &'a [u8]
    ensures { result.now ≡ spec.before mark.now bytes.entry.now }
{
    &bytes[..place_of(bytes, mark)]
}

// Returns the bytes after the first occurrence of a mark, if there is one.
fn behind<'a>(bytes: &'a [u8], mark: &[u8]) -> Option<&'a [u8]>
    ensures { option_copied result ≡ spec.behind mark.now bytes.entry.now }
{
    let at = place_of(bytes, mark);
    if at < bytes.len() {
        Some(rest_from(bytes, at.saturating_add(mark.len())))
    } else {
        None
    }
}

// Returns the bytes from an index on.
#[tactic(auto, using(std::proofs::lemmas::List::drop_all))]
fn rest_from(bytes: &[u8], at: usize) -> &[u8]
    ensures { result.now ≡ drop at bytes.now }
{
    if at < bytes.len() {
        return rest_of(bytes, at);
    }
    &[]
}

// Returns the index of the first occurrence of a mark, or the length.
fn place_of(bytes: &[u8], mark: &[u8]) -> usize
    ensures place { result ≡ spec.place_of mark.now bytes.now }
    ensures within { result ≤ length bytes.now }
{
    let mut at = 0;
    let mut rest = bytes;
    'bytes: while let Some((_, others)) = rest.split_first() {
        if rest.starts_with(mark) {
            break;
        }
        at += 1;
        rest = others;
    }
    at
}
