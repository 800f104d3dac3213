//! The text of an id that names a dot: a letter for what the dot names, and then the dot.

ghost use Rattle.std.specs.Prelude.{◌≡◌, ◌<◌, IfOk, string_bytes};
ghost use Rattle.tk_handle.specs.DotText.{id_text, id_in, ReadsId};

use crate::dot::Dot;
use crate::dot_text::read_parted;
use std::alloc::{AllocError, Global};

/// Returns the id of a dot: `<letter><region>-<serial>`, in decimals without leading zeros. The
/// letter is ASCII.
pub(crate) fn text_of(alloc: Global, letter: u8, dot: Dot) -> Result<String, AllocError>
    requires { letter < 128 }
    ensures { IfOk result (λ text. string_bytes text ≡ id_text letter dot) }
{
    let first = letter as char;
    let region = dot.region().number();
    let serial = dot.serial();
    format!(in alloc; "{first}{region}-{serial}")
}

/// Returns the dot behind the letter, or `None` for a text that `text_of` never returns.
pub(crate) fn read(letter: u8, text: &[u8]) -> Option<Dot>
    ensures value { result ≡ id_in letter text.now }
    ensures exact { ReadsId letter text.now result }
{
    spelled(letter, text)
}

fn spelled(letter: u8, text: &[u8]) -> Option<Dot>
    ensures { result ≡ id_in letter text.now }
{
    match text {
        [first, rest @ ..] if *first == letter => read_parted(b'-', rest),
        _ => None,
    }
}
