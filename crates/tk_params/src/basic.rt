//! The credentials of a Basic header (RFC 7617; RFC 6749, 2.3.1).

use std::marker::Model;

// The id and the secret of a Basic header, either of which may be empty: the texts before and
// behind one byte.
#[derive(Drop)]
pub(crate) struct Basic {
    bytes: Vec<u8>,
    colon: usize,
}

impl Model for Basic {
    ghost use Rattle.std.specs.Prelude.{ℕ, ◌+◌, ◌<◌, List, length, take, drop, IsUtf8};

    ghost Value = { List ℕ × List ℕ };

    ghost view = { λ b. (take b.colon b.bytes.items, drop (b.colon + 1) b.bytes.items) };

    ghost invariant = { λ b. (b.colon < length b.bytes.items)
        × IsUtf8 (take b.colon b.bytes.items)
        × IsUtf8 (drop (b.colon + 1) b.bytes.items) };
}

ghost use Rattle.std.specs.Prelude.{◌≡◌, ◌==◌, ◌<◌, ◌+◌, IfOk, IfSome, IfNone, IsUtf8, true};
ghost use Rattle.std.specs.Prelude.{length, position, take, drop};
ghost use Rattle.std.specs.Option.{option_copied, option_map};
ghost use Rattle.form_urlencoded.specs.Form.{pair_text};
ghost use Rattle.tk_params.specs.Basic as spec;
ghost use Rattle.tk_params.specs.Credentials.{secret_in};
ghost use Rattle.tk_params.specs.Params.{text_of};

use base64::DecodeAllocError;
use base64::engine::general_purpose::STANDARD;
use form_urlencoded::decode;
use std::alloc::{AllocError, Global};

impl Basic {
    // Returns the id, which may be empty.
    pub(crate) fn id(&self) -> &str
        ensures { result.now ≡ self.now.0 }
    {
        text_in(&self.bytes[..self.colon])
    }

    // Returns the secret. An empty one counts as absent.
    pub(crate) fn secret(&self) -> Option<&str>
        ensures { option_copied result ≡ secret_in self.now.1 }
    {
        let secret = text_in(behind(&self.bytes, self.colon));
        if secret.is_empty() {
            None
        } else {
            Some(secret)
        }
    }
}

// Returns the text that the bytes are.
fn text_in(bytes: &[u8]) -> &str
    requires { IsUtf8 bytes.now }
    ensures { result.now ≡ bytes.now }
{
    let Ok(text) = str::from_utf8(bytes) else {
        unreachable!("the bytes are UTF-8");
    };
    text
}

// Reads the credentials of a Basic header. Returns `None` if the header is not readable.
pub(crate) fn read_basic(alloc: Global, header: &[u8]) -> Result<Option<Basic>, AllocError>
    ensures { IfOk result (λ basic. basic ≡ spec.basic_of header.now) }
{
    match encoded_in(header) {
        Some(text) => match decoded(alloc, text)? {
            Some(bytes) => read_halves(alloc, bytes),
            None => Ok(None),
        },
        None => Ok(None),
    }
}

// Returns the bytes behind the scheme and the spaces.
fn encoded_in(header: &[u8]) -> Option<&[u8]>
    ensures { option_copied result ≡ spec.encoded_in header.now }
{
    match around_first(header, b' ') {
        Some((scheme, rest)) => encoded_behind(scheme, rest),
        None => None,
    }
}

// Returns the bytes behind the scheme, if the scheme is Basic.
fn encoded_behind<'a>(scheme: &[u8], rest: &'a [u8]) -> Option<&'a [u8]>
    ensures { option_copied result ≡ spec.encoded_behind scheme.now rest.now }
{
    if is_scheme(scheme) {
        Some(skip_spaces(rest))
    } else {
        None
    }
}

#[tactic(auto, using(crate::proofs::BasicLaws::same_in_lowercase))]
fn is_scheme(bytes: &[u8]) -> bool
    ensures { result ≡ spec.is_scheme bytes.now }
{
    bytes.eq_ignore_ascii_case(b"basic")
}

// Returns the bytes without their leading spaces.
fn skip_spaces(bytes: &[u8]) -> &[u8]
    ensures { result.now ≡ spec.skip_spaces bytes.now }
{
    let mut rest = bytes;
    'spaces: while let Some((first, others)) = rest.split_first() {
        if *first != b' ' {
            break;
        }
        rest = others;
    }
    rest
}

// Returns the bytes of a padded base64 text.
fn decoded(alloc: Global, text: &[u8]) -> Result<Option<Vec<u8>>, AllocError>
    ensures { IfOk result (λ bytes. option_map (λ v. v.items) bytes ≡ spec.decoded text.now) }
{
    match STANDARD.decode(alloc, text) {
        Ok(bytes) => Ok(Some(bytes)),
        Err(DecodeAllocError::OutOfMemory) => Err(AllocError),
        Err(_) => Ok(None),
    }
}

// Reads the texts before and behind the first colon.
fn read_halves(alloc: Global, bytes: Vec<u8>) -> Result<Option<Basic>, AllocError>
    ensures { IfOk result (λ basic. basic ≡ spec.halves_of bytes.items) }
{
    match first_place(&bytes, b':') {
        Some(colon) => {
            let basic = read_texts(alloc, bytes, colon)?;
            Ok(Some(basic))
        }
        None => Ok(None),
    }
}

// Decodes the id and the secret before and behind a place. Bytes that are the texts are kept.
fn read_texts(alloc: Global, bytes: Vec<u8>, colon: usize) -> Result<Basic, AllocError>
    requires { colon < length bytes.items }
    ensures { IfOk result (λ basic. basic
        ≡ (text_of (take colon bytes.items), text_of (drop (colon + 1) bytes.items))) }
{
    match decoded_texts(alloc, &bytes[..colon], behind(&bytes, colon))? {
        Some(basic) => Ok(basic),
        None => Ok(Basic { bytes, colon }),
    }
}

// Decodes the id and the secret, each form-encoded as a whole. Returns `None` if both are their own
// texts.
fn decoded_texts(alloc: Global, id: &[u8], secret: &[u8]) -> Result<Option<Basic>, AllocError>
    ensures some { IfOk result (λ basic. IfSome basic
        (λ b. b ≡ (text_of id.now, text_of secret.now))) }
    ensures none { IfOk result (λ basic. IfNone basic
        ((text_of id.now ≡ id.now) × (text_of secret.now ≡ secret.now)
        × IsUtf8 id.now × IsUtf8 secret.now)) }
{
    let id_text = decode(alloc, id)?;
    let secret_text = decode(alloc, secret)?;
    if is_same(id_text.as_str(), id) && is_same(secret_text.as_str(), secret) {
        return Ok(None);
    }
    let basic = joined(alloc, id_text.as_str(), secret_text.as_str())?;
    Ok(Some(basic))
}

// Returns whether the bytes are the text.
fn is_same(text: &str, bytes: &[u8]) -> bool
    ensures same { result ≡ true → text.now ≡ bytes.now }
    ensures utf8 { result ≡ true → IsUtf8 bytes.now }
{
    text.as_bytes() == bytes
}

// Copies an id and a secret behind each other.
fn joined(alloc: Global, id: &str, secret: &str) -> Result<Basic, AllocError>
    ensures { IfOk result (λ basic. basic ≡ (id.now, secret.now)) }
{
    let mut bytes = Vec::new(alloc);
    bytes.extend_from_slice(id.as_bytes())?;
    let colon = bytes.len();
    bytes.extend_from_slice(b":")?;
    bytes.extend_from_slice(secret.as_bytes())?;
    Ok(Basic { bytes, colon })
}

// Returns the bytes before and behind the first `mark`.
fn around_first(bytes: &[u8], mark: u8) -> Option<(&[u8], &[u8])>
    ensures { option_map pair_text result ≡ spec.around_first mark bytes.now }
{
    match first_place(bytes, mark) {
        Some(at) => Some((&bytes[..at], behind(bytes, at))),
        None => None,
    }
}

// Returns the place of the first `mark`.
fn first_place(bytes: &[u8], mark: u8) -> Option<usize>
    ensures value { result ≡ position (λ b. b == mark) bytes.now }
    ensures within { IfSome result (λ at. at < length bytes.now) }
{
    bytes.iter().position(|b| *b == mark)
}

#[tactic(auto, using(std::proofs::lemmas::List::take_rest))]
fn behind(bytes: &[u8], at: usize) -> &[u8]
    requires { at < length bytes.now }
    ensures { result.now ≡ drop (at + 1) bytes.now }
{
    &bytes[at + 1..]
}
