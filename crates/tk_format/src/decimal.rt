//! Numbers that are written as decimals.

ghost use Rattle.std.specs.Prelude.{◌≡◌, IfSome, IfNone};
ghost use Rattle.tk_format.specs.Decimals.{decimal_in, IsDecimalOf, IsNoDecimal};

/// Returns the number whose decimal the text is, from 0 to 18,446,744,073,709,551,615.
///
/// A decimal has no sign, and no leading zero but in `0` itself. Returns `None` for any other text.
pub fn read_decimal(text: &[u8]) -> Option<u64>
    ensures value { result ≡ decimal_in text.now }
    ensures found { IfSome result (IsDecimalOf text.now) }
    ensures none { IfNone result (IsNoDecimal text.now) }
{
    digits(text)
}

fn digits(text: &[u8]) -> Option<u64>
    ensures { result ≡ decimal_in text.now }
{
    let [first, ..] = text else {
        return None;
    };
    if *first == b'+' || (*first == b'0' && text.len() > 1) {
        return None;
    }
    let Ok(text) = str::from_utf8(text) else {
        return None;
    };
    text.parse::<u64>().ok()
}
