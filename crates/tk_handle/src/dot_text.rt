//! The text of a dot: `R:S` in scripts and vectors, and `R-S` behind the letter of an id.

ghost use Rattle.std.specs.Prelude.{◌≡◌, ◌==◌, ◌<◌, IfSome, IfNone, Some, length, position};
ghost use Rattle.std.specs.List.{before_first, after_first};
ghost use Rattle.tk_handle.specs.DotText.{dot_at, dot_text, parted_in, IsDotText};
ghost use Rattle.tk_handle.specs.DotText.{IsNoDotText};

use crate::dot::Dot;
use crate::region::RegionNumber;
use std::fmt;
use tk_format::read_decimal;

impl Dot {
    /// Returns the dot whose text is `R:S`, region and serial in decimals without leading zeros.
    /// Returns `None` for any other text.
    pub fn read_text(text: &[u8]) -> Option<Dot>
        ensures found { IfSome result (IsDotText text.now) }
        ensures none { IfNone result (IsNoDotText text.now) }
    {
        read_parted(b':', text)
    }
}

/// Prints `R:S`, the region and the serial in decimals without leading zeros.
impl fmt::Display for Dot {
    ghost output = { λ d. Some (dot_text d) };

    fn fmt<W: fmt::Write>(&self, f: &mut fmt::Formatter<W>) -> fmt::Result {
        write!(f, "{}:{}", self.region().number(), self.serial())
    }
}

/// Returns the dot whose region is before the first `mark`, and whose serial is behind that byte.
pub(crate) fn read_parted(mark: u8, text: &[u8]) -> Option<Dot>
    ensures { result ≡ parted_in mark text.now }
{
    let (region, serial) = parts(mark, text);
    dot_of(read_decimal(region), read_decimal(serial))
}

// Returns the text before the first `mark`, and the text behind that byte.
fn parts(mark: u8, text: &[u8]) -> (&[u8], &[u8])
    ensures front { result.0.now ≡ before_first (λ b. b == mark) text.now }
    ensures back { result.1.now ≡ after_first (λ b. b == mark) text.now }
{
    match first_in(mark, text) {
        Some(at) => (&text[..at], &text[at + 1..]),
        None => (text, &[]),
    }
}

// Returns the place of the first `mark`.
fn first_in(mark: u8, text: &[u8]) -> Option<usize>
    ensures value { result ≡ position (λ b. b == mark) text.now }
    ensures bound { IfSome result (λ at. at < length text.now) }
{
    text.iter().position(|b| *b == mark)
}

// Returns the dot of two numbers, if both are present and in range.
fn dot_of(region: Option<u64>, serial: Option<u64>) -> Option<Dot>
    ensures { result ≡ dot_at region serial }
{
    Dot::new(RegionNumber::new(u16::try_from(region?).ok()?)?, serial?)
}
