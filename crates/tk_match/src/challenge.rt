//! Code challenges of PKCE (RFC 7636), and the verifiers that meet them.

use std::marker::Model;

/// A code challenge (RFC 7636, 4.2 and 4.3): a client sends it first, and later proves that it
/// knows the verifier.
#[derive(Drop)]
pub struct Challenge {
    is_s256: bool,
    text: String,
}

impl Model for Challenge {
    ghost use Rattle.std.specs.Prelude.{IsTrue, string_bytes};
    ghost use Rattle.tk_match.specs.Challenge.{ChallengeFields, is_verifier};

    ghost Value = { ChallengeFields };

    ghost view = { λ c. record { is_s256 = c.is_s256; text = string_bytes c.text } };

    ghost invariant = { λ c. IsTrue (is_verifier (string_bytes c.text)) };
}

/// The reason why a challenge was refused.
///
/// The tests are made in the order of the variants, and the first that fails is returned. `Memory`
/// may be returned by any call.
#[derive(Clone, Copy)]
pub enum ChallengeError {
    /// The method is neither `plain` nor `S256`.
    Method,
    /// The text is not 43 to 128 unreserved bytes.
    Malformed,
    /// Memory ran out.
    Memory,
}

impl From<AllocError> for ChallengeError {
    ghost use Rattle.std.specs.Prelude.{◌≡◌};
    ghost use Rattle.tk_match.specs.declared.challenge.ChallengeError.TheVariants.{Memory};

    ghost from_gives = { λ _ e. e ≡ Memory };

    fn from(_: AllocError) -> ChallengeError {
        ChallengeError::Memory
    }
}

ghost use Rattle.std.specs.Prelude.{◌≡◌, ◌↔◌, IfOk, IsErrOf, IsTrue, Some, None, true};
ghost use Rattle.std.specs.List.{list_all};
ghost use Rattle.tk_match.specs.Challenge.{is_unreserved, is_verifier, challenge_refusal};
ghost use Rattle.tk_match.specs.Challenge.{challenge_of, challenge_text, Meets, is_met};

use base64::engine::general_purpose::URL_SAFE_NO_PAD;
use sha2::{Digest, Sha256};
use std::alloc::{AllocError, Global};

/// The least length in bytes of a verifier and of a challenge (RFC 7636, 4.1 and 4.2).
const MIN_BYTES: usize = 43;

/// The greatest length in bytes of a verifier and of a challenge (RFC 7636, 4.1 and 4.2).
const MAX_BYTES: usize = 128;

impl Challenge {
    /// Reads a challenge from a method and a text, as they were sent.
    ///
    /// Returns the first error that applies, in the order of [`ChallengeError`]. An empty method is
    /// refused too: the caller decides what a request without a method means.
    pub fn read(alloc: Global, method: &[u8], text: &[u8]) -> Result<Challenge, ChallengeError>
        ensures ok { IfOk result (λ c. challenge_of method.now text.now ≡ Some c) }
        ensures method { IsErrOf result ChallengeError.Method
            → challenge_refusal method.now text.now ≡ Some ChallengeError.Method }
        ensures grammar { IsErrOf result ChallengeError.Malformed
            → challenge_refusal method.now text.now ≡ Some ChallengeError.Malformed }

        // These clauses state the errors by `challenge_of`, for a format of challenges.
        ensures method_none { IsErrOf result ChallengeError.Method
            → challenge_of method.now text.now ≡ None }
        ensures grammar_none { IsErrOf result ChallengeError.Malformed
            → challenge_of method.now text.now ≡ None }
    {
        let is_s256 = method == b"S256".as_slice();
        if !is_s256 && method != b"plain".as_slice() {
            return Err(ChallengeError::Method);
        }
        if !is_verifier(text) {
            return Err(ChallengeError::Malformed);
        }
        let Ok(text) = str::from_utf8(text) else {
            unreachable!("unreserved bytes are ASCII");
        };
        let text = String::from_str(alloc, text)?;
        Ok(Challenge { is_s256, text })
    }

    /// Returns whether the verifier is well-formed and meets the challenge (RFC 7636, 4.6).
    pub fn meets(&self, verifier: &[u8]) -> bool
        ensures value { result ≡ is_met self.now verifier.now }
        ensures meaning { IsTrue result ↔ Meets self.now verifier.now }
    {
        if !is_verifier(verifier) {
            return false;
        }
        if self.is_s256 {
            s256(verifier).as_slice() == self.text.as_bytes()
        } else {
            verifier == self.text.as_bytes()
        }
    }

    /// Returns whether the method is `S256`. Otherwise the method is `plain`.
    pub fn is_s256(&self) -> bool
        ensures { result ≡ self.now.is_s256 }
    {
        self.is_s256
    }

    /// Returns the text as it was sent.
    pub fn text(&self) -> &str
        ensures value { result.now ≡ self.now.text }
        ensures known { IsTrue (is_verifier self.now.text) }
    {
        self.text.as_str()
    }

    /// Returns a copy of this challenge. Fails if memory runs out.
    pub fn copy(&self, alloc: Global) -> Result<Challenge, AllocError>
        ensures { IfOk result (λ c. c ≡ self.now) }
    {
        let text = String::from_str(alloc, self.text())?;
        Ok(Challenge {
            is_s256: self.is_s256,
            text,
        })
    }

    /// Returns whether both have the same method and the same text.
    pub fn same(&self, other: &Challenge) -> bool
        ensures { IsTrue result ↔ (self.now ≡ other.now) }
    {
        self.is_s256 == other.is_s256 && self.text() == other.text()
    }
}

// Returns the S256 challenge of a verifier.
fn s256(verifier: &[u8]) -> [u8; 43]
    ensures { result ≡ challenge_text true verifier.now }
{
    let mut text = [0u8; 43];
    let _ = URL_SAFE_NO_PAD.encode_slice(&Sha256::digest(verifier), &mut text);
    text
}

// Returns whether the text is 43 to 128 unreserved bytes.
fn is_verifier(text: &[u8]) -> bool
    ensures { result ≡ is_verifier text.now }
{
    (MIN_BYTES..=MAX_BYTES).contains(&text.len()) && has_unreserved_bytes(text)
}

fn has_unreserved_bytes(text: &[u8]) -> bool
    ensures { result ≡ list_all is_unreserved text.now }
{
    text.iter().all(|b| is_unreserved(*b))
}

fn is_unreserved(byte: u8) -> bool
    ensures { result ≡ is_unreserved byte }
{
    byte.is_ascii_alphanumeric() || matches!(byte, b'-' | b'.' | b'_' | b'~')
}
