//! The printed form of a scope.

ghost use Rattle.std.specs.Prelude.{◌≡◌, IfOk, string_bytes};
ghost use Rattle.tk_scope.specs.Scope.{scope_text, tokens_of};

use std::alloc::{AllocError, Global};

/// Returns the tokens of the text in byte order, without duplicates, with one space between each
/// two.
pub(crate) fn printed(alloc: Global, text: &str) -> Result<String, AllocError>
    ensures { IfOk result (λ s. string_bytes s ≡ scope_text (tokens_of text.now)) }
{
    let mut tokens: Vec<&str> = text.split(' ').collect(alloc)?;
    tokens.sort_unstable();
    tokens.dedup();
    tokens.join(alloc, " ")
}
