//! The ids of logins.

ghost use Rattle.std.specs.Prelude.{◌≡◌, IfOk, string_bytes};
ghost use Rattle.tk_handle.specs.LoginId.{login_text, login_in, ReadsLoginId};

use crate::dot::Dot;
use crate::id_text;
use std::alloc::{AllocError, Global};

/// Returns the id of the login that the code of the dot began: `l<region>-<serial>`, in decimals
/// without leading zeros. The form is our own. Fails if memory runs out.
pub fn login_text(alloc: Global, dot: Dot) -> Result<String, AllocError>
    ensures { IfOk result (λ text. string_bytes text ≡ login_text dot) }
{
    id_text::text_of(alloc, b'l', dot)
}

/// Returns the dot that a login id names, or `None` if the text is no login id.
pub fn read_login(text: &[u8]) -> Option<Dot>
    ensures value { result ≡ login_in text.now }
    ensures exact { ReadsLoginId text.now result }
{
    id_text::read(b'l', text)
}
