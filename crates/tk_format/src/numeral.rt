//! Numbers of any length that are written in decimal digits, read up to a limit.

ghost use Rattle.std.specs.Prelude.{◌≡◌, ◌<◌, ◌^◌, true, min, IsTrue};
ghost use Rattle.std.specs.Char.{digit_value, is_ascii_digit};
ghost use Rattle.std.specs.Str.{all_ascii_digits};
ghost use Rattle.std.specs.Str.Parse.{digits_value};
ghost use Rattle.tk_format.specs.Numerals.{is_numeral, numeral_up_to};

/// What a text is as a number, compared with a limit.
#[derive(Clone, Copy)]
pub enum Numeral {
    /// The text is empty, or a byte of the text is no digit.
    Malformed,
    /// The number is above the limit.
    Above,
    /// The number, at most the limit.
    Within(u32),
}

/// Reads one or more ASCII digits as a number, if the number is at most the limit.
///
/// Leading zeros are allowed. The text may be any length: for a number too great for any integer
/// type the result is `Above`.
pub fn read_numeral(text: &[u8], limit: u32) -> Numeral
    ensures { result ≡ numeral_up_to limit text.now }
{
    if !is_digits(text) {
        return Numeral::Malformed;
    }
    let value = value_up_to(text, u64::from(limit) + 1);
    if value <= u64::from(limit) {
        Numeral::Within(value as u32)
    } else {
        Numeral::Above
    }
}

fn is_digits(text: &[u8]) -> bool
    ensures { result ≡ is_numeral text.now }
{
    !text.is_empty() && all_digits(text)
}

fn all_digits(text: &[u8]) -> bool
    ensures { result ≡ all_ascii_digits text.now }
{
    let mut rest = text;
    'bytes: while let Some((first, others)) = rest.split_first() {
        if !first.is_ascii_digit() {
            return false;
        }
        rest = others;
    }
    true
}

// Returns the lesser of `most` and the number that the digits write.
#[tactic(auto, using(crate::proofs::NumeralLaws::digit_in, crate::proofs::NumeralLaws::one_digit_more))]
fn value_up_to(text: &[u8], most: u64) -> u64
    requires digits { all_ascii_digits text.now ≡ true }
    requires small { most < 2 ^ 33 }
    ensures { result ≡ min (digits_value 10 text.now) most }
{
    let mut value = 0u64;
    for at in 0..text.len() {
        value = (value * 10 + digit_of(text[at])).min(most);
    }
    value
}

fn digit_of(digit: u8) -> u64
    requires { IsTrue (is_ascii_digit digit) }
    ensures value { result ≡ digit_value digit }
    ensures bound { result < 10 }
{
    u64::from(digit - b'0')
}
