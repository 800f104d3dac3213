//! The name of a log's part: `part_name`.

ghost use Rattle.std.specs.Prelude.{◌≡◌, ◌++◌, IfSome, OnOk, string_bytes};
ghost use Rattle.tokend.specs.LogParts.{digit_at, four_digits, part_name};

use std::alloc::{AllocError, Global};
use std::path::Path;

/// Returns the name of the part with this number of a log: the number, in four digits, comes before
/// the extension of the log's name. `None` if memory runs out.
pub(crate) fn part_name(alloc: Global, log: &str, number: u16) -> Option<String>
    ensures { IfSome result (λ name. string_bytes name ≡ part_name log.now number) }
{
    let mut name = Vec::new(alloc);
    match write_name(&mut name, log, number) {
        Ok(()) => String::from_utf8(name).ok(),
        Err(_) => {
            drop(name);
            None
        }
    }
}

// Appends the name of a part.
fn write_name(name: &mut Vec<u8>, log: &str, number: u16) -> Result<(), AllocError>
    ensures { OnOk result (name.new.items ≡ name.old.items ++ part_name log.now number) }
{
    let digits = four_digits(number);
    let Some(extension) = Path::new(log).extension() else {
        name.extend_from_slice(log.as_bytes())?;
        name.extend_from_slice(b".")?;
        return name.extend_from_slice(&digits);
    };
    let stem = log.len().saturating_sub(extension.len());
    name.extend_from_slice(&log.as_bytes()[..stem])?;
    name.extend_from_slice(&digits)?;
    name.extend_from_slice(b".")?;
    name.extend_from_slice(extension.as_bytes())
}

// Returns the last four digits of a number.
fn four_digits(number: u16) -> [u8; 4]
    ensures { result ≡ four_digits number }
{
    [
        digit(number / 1000),
        digit(number / 100),
        digit(number / 10),
        digit(number),
    ]
}

// Returns the last digit of a number.
fn digit(number: u16) -> u8
    ensures { result ≡ digit_at 1 number }
{
    b'0' + (number % 10) as u8
}
