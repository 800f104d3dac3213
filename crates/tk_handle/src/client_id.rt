//! The ids of clients.

ghost use Rattle.std.specs.Prelude.{◌≡◌, IfOk, string_bytes};
ghost use Rattle.tk_handle.specs.ClientId.{client_text, client_in, ReadsClientId};

use crate::dot::Dot;
use crate::id_text;
use std::alloc::{AllocError, Global};

/// Returns the id of the client that was added at the dot: `c<region>-<serial>`, in decimals
/// without leading zeros. RFC 6749, 2.2 leaves the form of client identifiers to the server. Fails
/// if memory runs out.
pub fn client_text(alloc: Global, dot: Dot) -> Result<String, AllocError>
    ensures { IfOk result (λ text. string_bytes text ≡ client_text dot) }
{
    id_text::text_of(alloc, b'c', dot)
}

/// Returns the dot that a client id names, or `None` if the text is no client id.
pub fn read_client(text: &[u8]) -> Option<Dot>
    ensures value { result ≡ client_in text.now }
    ensures exact { ReadsClientId text.now result }
{
    id_text::read(b'c', text)
}
