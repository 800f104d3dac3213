//! The ids of consents.

ghost use Rattle.std.specs.Prelude.{◌≡◌, IfOk, string_bytes};
ghost use Rattle.tk_handle.specs.ConsentId.{consent_text, consent_in, ReadsConsentId};

use crate::dot::Dot;
use crate::id_text;
use std::alloc::{AllocError, Global};

/// Returns the id of the consent that was given at the dot: `g<region>-<serial>`, in decimals
/// without leading zeros. The form is our own. Fails if memory runs out.
pub fn consent_text(alloc: Global, dot: Dot) -> Result<String, AllocError>
    ensures { IfOk result (λ text. string_bytes text ≡ consent_text dot) }
{
    id_text::text_of(alloc, b'g', dot)
}

/// Returns the dot that a consent id names, or `None` if the text is no consent id.
pub fn read_consent(text: &[u8]) -> Option<Dot>
    ensures value { result ≡ consent_in text.now }
    ensures exact { ReadsConsentId text.now result }
{
    id_text::read(b'g', text)
}
