//! Handles: the secrets that clients hold for tokens.

ghost use Rattle.std.specs.Prelude.{◌≡◌, ◌≢◌, IfSome, IfNone};
ghost use Rattle.std.specs.Int.{w64};
ghost use Rattle.std.specs.List.{AllByRecursion};
ghost use Rattle.sha2.specs.Sha256.{sha256};
ghost use Rattle.tk_format.specs.Format.{number, repeated, whole};
ghost use Rattle.tk_format.specs.Reading.{Reads};
ghost use Rattle.tk_handle.specs.Handle.{handle, handle_bytes, handle_text, handle_in};
ghost use Rattle.tk_handle.specs.declared.handle.Handle.{Handle as AnyHandle};

use crate::dot::Dot;
use crate::kind::Kind;
use crate::token_id::TokenId;
use base64::engine::general_purpose::URL_SAFE_NO_PAD;
use sha2::{Digest, Sha256};
use tk_format::Reader;

// This number never changes: clients hold handles of this version.
const VERSION: u8 = 1;

/// The secret that a client holds for a token: the token's name and three random words.
///
/// A handle is 36 bytes, high byte first: the version 1, the kind's number, the region's number in
/// two bytes, the serial in eight, and the three words in eight each. Clients see the text of these
/// bytes. Facts keep their digest.
#[derive(Clone, Copy)]
pub struct Handle {
    /// The token's name.
    pub id: TokenId,
    /// The random words, which make the handle hard to guess. Any numbers are allowed.
    pub words: [u64; 3],
}

impl Handle {
    /// Returns the handle of a token that was minted with these random words.
    pub fn mint(id: TokenId, words: [u64; 3]) -> Handle
        ensures { result ≡ record { id = id; words = words } }
    {
        Handle { id, words }
    }

    /// Gives a caller's proof the fact that name and words are in their ranges. Does nothing at run
    /// time.
    pub fn known(&self)
        ensures { handle.Fits self.now }
    {
        self.id.dot.known();
        known_words(&self.words);
    }

    /// Returns the text that the client receives: letters, digits, `-` and `_`, in base64url
    /// without padding (RFC 4648, 5).
    pub fn text(&self) -> [u8; 48]
        ensures { result ≡ handle_text self.now }
    {
        let mut text = [0; 48];
        let _ = URL_SAFE_NO_PAD.encode_slice(&self.bytes(), &mut text);
        text
    }

    /// Returns the handle whose text this is, or `None` for a text that `text` never returns.
    pub fn read(text: &[u8]) -> Option<Handle>
        ensures value { result ≡ handle_in text.now }
        ensures found { IfSome result (λ h. handle.Fits h × (text.now ≡ handle_text h)) }
        ensures none { IfNone result ((h : AnyHandle) → handle.Fits h → text.now ≢ handle_text h) }
    {
        Handle::of_text(text)
    }

    /// Returns the digest that facts keep of a handle: SHA-256 of its 36 bytes (FIPS 180-4).
    pub fn digest(&self) -> [u8; 32]
        ensures { result ≡ sha256 (handle_bytes self.now) }
    {
        Sha256::digest(self.bytes().as_slice())
    }

    // Returns the 36 bytes of the handle.
    fn bytes(&self) -> [u8; 36]
        ensures { result ≡ handle_bytes self.now }
    {
        let kind = self.id.kind.number();
        let region = self.id.dot.region().number().to_be_bytes();
        let serial = self.id.dot.serial().to_be_bytes();
        let words = self.words;
        let first = words[0].to_be_bytes();
        let second = words[1].to_be_bytes();
        let third = words[2].to_be_bytes();
        [
            VERSION, kind, region[0], region[1], serial[0], serial[1], serial[2], serial[3],
            serial[4], serial[5], serial[6], serial[7], first[0], first[1], first[2], first[3],
            first[4], first[5], first[6], first[7], second[0], second[1], second[2], second[3],
            second[4], second[5], second[6], second[7], third[0], third[1], third[2], third[3],
            third[4], third[5], third[6], third[7],
        ]
    }

    fn of_text(text: &[u8]) -> Option<Handle>
        ensures value { result ≡ handle_in text.now }
        ensures found { IfSome result (λ h. handle.Fits h × (text.now ≡ handle_text h)) }
    {
        if text.len() != 48 {
            return None;
        }
        let mut bytes = [0; 36];
        let Ok(count) = URL_SAFE_NO_PAD.decode_slice_unchecked(text, &mut bytes) else {
            return None;
        };
        Handle::of_bytes(&bytes[..count])
    }

    // Returns the handle that all of the bytes together spell.
    fn of_bytes(bytes: &[u8]) -> Option<Handle>
        ensures value { result ≡ whole handle bytes.now }
        ensures found { IfSome result (λ h. handle.Fits h × (bytes.now ≡ handle_bytes h)) }
    {
        let mut reader = Reader::new(bytes);
        let handle = Handle::read_front(&mut reader)?;
        if reader.is_empty() {
            Some(handle)
        } else {
            None
        }
    }

    // Takes a handle from the front.
    fn read_front(reader: &mut Reader<'_>) -> Option<Handle>
        ensures { Reads (λ h. h) handle result reader.old reader.new }
    {
        reader.take_magic(&[VERSION])?;
        let kind = Kind::read(reader)?;
        let dot = Dot::read(reader)?;
        let words = Handle::read_words(reader)?;
        Some(Handle {
            id: TokenId { dot, kind },
            words,
        })
    }

    // Takes the three random words.
    #[tactic(auto, unfolding(tk_format::specs::Format::read_many))]
    fn read_words(reader: &mut Reader<'_>) -> Option<[u64; 3]>
        ensures { Reads (λ w. w) (repeated 3 (number w64)) result reader.old reader.new }
    {
        let first = reader.take_u64()?;
        let second = reader.take_u64()?;
        let third = reader.take_u64()?;
        Some([first, second, third])
    }
}

// Gives a caller's proof the fact that each word is below 2^64.
fn known_words(words: &[u64])
    ensures { AllByRecursion (number w64).Fits words.now }
{
    let _words = words;
}
