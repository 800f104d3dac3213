//! The scope that is requested (RFC 6749, 3.3).

ghost use Rattle.std.specs.Prelude.{◌≡◌, IfOk, Some};
ghost use Rattle.std.specs.Option.{option_copied};
ghost use Rattle.tk_message.specs.ScopeAsked as spec;

use std::alloc::{AllocError, Global};
use tk_scope::{Scope, ScopeError};

/// Returns the scope that is requested: the scope that was sent, or the whole if no scope was sent
/// (RFC 6749, 3.3).
///
/// Returns `None` if the text is not a scope or goes beyond the whole, and an error if memory runs
/// out.
pub fn scope_asked(
    alloc: Global,
    whole: &Scope,
    sent: Option<&str>,
) -> Result<Option<Scope>, AllocError>
    ensures { IfOk result (λ scope. scope ≡ spec.scope_asked whole.now (option_copied sent.entry)) }
{
    match sent {
        Some(text) => read_within(alloc, whole, text.as_bytes()),
        None => {
            let copy = whole.copy(alloc)?;
            Ok(Some(copy))
        }
    }
}

// Reads a scope that is within the whole.
fn read_within(alloc: Global, whole: &Scope, text: &[u8]) -> Result<Option<Scope>, AllocError>
    ensures { IfOk result (λ scope. scope ≡ spec.scope_asked whole.now (Some text.now)) }
{
    match Scope::read(alloc, text) {
        Ok(scope) => {
            if scope.within(whole) {
                Ok(Some(scope))
            } else {
                Ok(None)
            }
        }
        Err(ScopeError::Memory) => Err(AllocError),
        Err(ScopeError::TooLong) => Ok(None),
        Err(ScopeError::Malformed) => Ok(None),
        Err(ScopeError::TooMany) => Ok(None),
    }
}
