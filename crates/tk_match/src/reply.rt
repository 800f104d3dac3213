//! The URI that a browser is sent back to (RFC 6749, 4.1.2).

ghost use Rattle.std.specs.Prelude.{◌≡◌, ◌∷◌, [], ◌++◌, IfOk, map, string_bytes};
ghost use Rattle.form_urlencoded.specs.Form.{pair_text};
ghost use Rattle.tk_match.specs.ReplyUri.{joint, reply_of};

use form_urlencoded::Serializer;
use std::alloc::{AllocError, Global};

/// Returns the URI that a browser is sent back to (RFC 6749, 4.1.2).
///
/// The result is `uri`, then `&` if `uri` contains a `?` and otherwise `?`, then the pairs in form
/// encoding. A `uri` that ends in an empty query therefore gives `?&`. Fails if memory runs out.
pub fn reply_uri(alloc: Global, uri: &str, pairs: &[(&str, &str)]) -> Result<String, AllocError>
    ensures { IfOk result (λ text. string_bytes text ≡ reply_of uri.now (map pair_text pairs.now)) }
{
    let text = with_joint(alloc, uri)?;
    let start = text.len();
    let mut form = Serializer::for_suffix(text, start);
    form.extend_pairs(pairs)?;
    Ok(form.finish())
}

// Returns the URI with `&` or `?` behind it.
fn with_joint(alloc: Global, uri: &str) -> Result<String, AllocError>
    ensures { IfOk result (λ text. string_bytes text ≡ uri.now ++ joint uri.now ∷ []) }
{
    let mut text = String::from_str(alloc, uri)?;
    let joint = if uri.as_bytes().contains(&b'?') {
        "&"
    } else {
        "?"
    };
    text.push_str(joint)?;
    Ok(text)
}
