//! A scope: a set of scope-tokens, kept as its printed form.

use std::marker::Model;

/// A set of scope-tokens: at least one, and no more than the limits on its text allow.
#[derive(Drop)]
pub struct Scope {
    /// The printed form: the tokens in byte order, without duplicates, with one space between each
    /// two.
    text: String,
}

impl Model for Scope {
    ghost use Rattle.std.specs.Prelude.{◌≡◌, ℕ, List, Some, string_bytes};
    ghost use Rattle.tk_scope.specs.Scope.{scope_of};

    ghost Value = { List ℕ };

    ghost view = { λ s. string_bytes s.text };

    ghost invariant = { λ s. scope_of (string_bytes s.text) ≡ Some (string_bytes s.text) };
}

ghost use Rattle.std.specs.Prelude.{◌≡◌, ◌≤◌, ◌↔◌, ◌⊎◌, length, IfOk, IfErr, IsErrOf, IsTrue, None};
ghost use Rattle.std.specs.Prelude.{Some};
ghost use Rattle.std.specs.Cmp.Lexicographic.{slice_cmp};
ghost use Rattle.std.specs.List.Sorted.{IsStrictlySortedBy};
ghost use Rattle.std.specs.Ordering.{nat_cmp};
ghost use Rattle.tk_scope.specs.Scope.{max_length, scope_of, scope_refusal, HasSameTokens};
ghost use Rattle.tk_scope.specs.Scope.{IsWithin, is_within, tokens_of};

use crate::ScopeError;
use crate::grammar::is_list_of_tokens;
use crate::printed::printed;
use crate::tokens::{are_tokens_within, token_count};
use std::alloc::{AllocError, Global};

/// The greatest length in bytes of a scope as it is written. This limit is our own.
pub const MAX_BYTES: usize = 1024;

// The greatest number of tokens of a scope as it is written, counting repeated ones. This limit is
// our own.
const MAX_TOKENS: usize = 32;

impl Scope {
    /// Reads a scope from a text.
    ///
    /// Returns the first error that applies, in the order of [`ScopeError`]. The limits apply to
    /// the text as it is written: a token that is repeated 33 times is too many.
    pub fn read(alloc: Global, text: &[u8]) -> Result<Scope, ScopeError>
        ensures ok { IfOk result (λ scope. scope_of text.now ≡ Some scope) }
        ensures members { IfOk result (λ scope. HasSameTokens text.now scope) }
        ensures refused { IfErr result
            (λ e. (e ≡ ScopeError.Memory) ⊎ (scope_refusal text.now ≡ Some e)) }

        // Every error but `Memory` means that the text is no scope.
        ensures too_long { IsErrOf result ScopeError.TooLong → scope_of text.now ≡ None }
        ensures grammar { IsErrOf result ScopeError.Malformed → scope_of text.now ≡ None }
        ensures too_many { IsErrOf result ScopeError.TooMany → scope_of text.now ≡ None }
    {
        if text.len() > MAX_BYTES {
            return Err(ScopeError::TooLong);
        }
        let Ok(text) = str::from_utf8(text) else {
            return Err(ScopeError::Malformed);
        };
        if !is_list_of_tokens(text) {
            return Err(ScopeError::Malformed);
        }
        if token_count(text) > MAX_TOKENS {
            return Err(ScopeError::TooMany);
        }
        let text = printed(alloc, text)?;
        Ok(Scope { text })
    }

    /// Returns whether each token of this scope is a token of the other.
    pub fn within(&self, other: &Scope) -> bool
        ensures value { result ≡ is_within self.now other.now }
        ensures meaning { IsTrue result ↔ IsWithin self.now other.now }
    {
        are_tokens_within(self.text(), other.text())
    }

    /// Returns the printed form: the tokens in byte order, without duplicates, with one space
    /// between each two.
    pub fn text(&self) -> &str
        ensures value { result.now ≡ self.now }
        ensures in_order { IsStrictlySortedBy (slice_cmp nat_cmp) (tokens_of self.now) }
        ensures short { length self.now ≤ max_length }

        // Reading the printed form gives this scope again.
        ensures again { scope_of self.now ≡ Some self.now }
    {
        self.text.as_str()
    }

    /// Returns a copy of this scope. Fails if memory runs out.
    pub fn copy(&self, alloc: Global) -> Result<Scope, AllocError>
        ensures { IfOk result (λ scope. scope ≡ self.now) }
    {
        let text = String::from_str(alloc, self.text())?;
        Ok(Scope { text })
    }

    /// Returns whether the two scopes have the same tokens.
    pub fn same(&self, other: &Scope) -> bool
        ensures equal { IsTrue result ↔ (self.now ≡ other.now) }
        ensures members { IsTrue result ↔ HasSameTokens self.now other.now }
    {
        self.text() == other.text()
    }
}
