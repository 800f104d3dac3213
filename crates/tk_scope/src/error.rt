//! The errors of reading a scope.

ghost use Rattle.std.specs.Prelude.{◌≡◌};
ghost use Rattle.tk_scope.specs.declared.error.ScopeError.TheVariants.{Memory};

use std::alloc::AllocError;
use thiserror::Error;

/// The reason why a text was not read as a scope.
///
/// The tests are made in the order of the variants, and the first that fails is returned. `Memory`
/// may be returned in place of any other error.
#[derive(Clone, Copy, Debug, PartialEq, Eq, Error)]
pub enum ScopeError {
    /// The text has more than 1,024 bytes.
    #[error("the scope is too long")]
    TooLong,
    /// The text is not scope-tokens with one space between each two.
    #[error("the scope is malformed")]
    Malformed,
    /// The text has more than 32 tokens, counting repeated ones.
    #[error("the scope has too many tokens")]
    TooMany,
    /// Memory ran out.
    #[error("out of memory")]
    Memory,
}

impl From<AllocError> for ScopeError {
    ghost from_gives = { λ _ e. e ≡ Memory };

    fn from(_error: AllocError) -> ScopeError {
        ScopeError::Memory
    }
}
