//! Writing bytes one after the other.

use std::marker::Model;

/// Bytes that are written one after the other.
///
/// Each `put_` method writes a value at the end. Numbers have the high byte first.
#[derive(Drop)]
pub struct Writer {
    /// The bytes written so far.
    bytes: Vec<u8>,
}

impl Model for Writer {
    ghost use Rattle.std.specs.Prelude.{List, ℕ};

    ghost Value = { List ℕ };

    ghost view = { λ w. w.bytes.items };
}

ghost use Rattle.std.specs.Prelude.{◌≡◌, ◌<◌, ◌^◌, ◌++◌, [], length, OnErr, OnOk};
ghost use Rattle.std.specs.Int.{w16, w64};
ghost use Rattle.tk_format.specs.Format.{byte, number, text};

use std::alloc::{AllocError, Global};

impl Writer {
    /// Returns a writer that has written nothing.
    pub fn new(alloc: Global) -> Writer
        ensures { result ≡ [] }
    {
        Writer {
            bytes: Vec::new(alloc),
        }
    }

    /// Returns the bytes that were written.
    pub fn into_bytes(self) -> Vec<u8>
        ensures { result.items ≡ self }
    {
        let Writer { bytes } = self;
        bytes
    }

    /// Writes one byte. Fails if memory runs out, and writes nothing then.
    pub fn put_u8(&mut self, value: u8) -> Result<(), AllocError>
        ensures ok { OnOk result (self.new ≡ self.old ++ byte.spell value) }
        ensures err { OnErr result (self.new ≡ self.old) }
    {
        self.bytes.push(value)?;
        Ok(())
    }

    /// Writes a number in two bytes. Fails if memory runs out, and writes nothing then.
    #[tactic(auto, unfolding(crate::specs::Format::number_spelling))]
    pub fn put_u16(&mut self, value: u16) -> Result<(), AllocError>
        ensures ok { OnOk result (self.new ≡ self.old ++ (number w16).spell value) }
        ensures err { OnErr result (self.new ≡ self.old) }
    {
        self.bytes.extend_from_slice(&u16::to_be_bytes(value))
    }

    /// Writes a number in eight bytes. Fails if memory runs out, and writes nothing then.
    #[tactic(auto, unfolding(crate::specs::Format::number_spelling))]
    pub fn put_u64(&mut self, value: u64) -> Result<(), AllocError>
        ensures ok { OnOk result (self.new ≡ self.old ++ (number w64).spell value) }
        ensures err { OnErr result (self.new ≡ self.old) }
    {
        self.bytes.extend_from_slice(&u64::to_be_bytes(value))
    }

    /// Writes the bytes as they are. Fails if memory runs out, and writes nothing then.
    pub fn put_bytes(&mut self, bytes: &[u8]) -> Result<(), AllocError>
        ensures ok { OnOk result (self.new ≡ self.old ++ bytes.now) }
        ensures err { OnErr result (self.new ≡ self.old) }
    {
        self.bytes.extend_from_slice(bytes)
    }

    /// Writes the length of `content`, at most 65,535, as a number in two bytes, and then
    /// `content`. Fails if memory runs out, and writes nothing then.
    #[tactic(auto, unfolding(crate::specs::Format::text_spelling, crate::specs::Format::number_spelling))]
    pub fn put_text(&mut self, content: &[u8]) -> Result<(), AllocError>
        requires { length content.now < 2 ^ 16 }
        ensures ok { OnOk result (self.new ≡ self.old ++ text.spell content.now) }
        ensures err { OnErr result (self.new ≡ self.old) }
    {
        let length = u16::to_be_bytes(content.len() as u16);
        // Room comes first, so that no length is left without its bytes.
        self.bytes.reserve(length.len() + content.len())?;
        self.bytes.extend_from_slice(&length)?;
        self.bytes.extend_from_slice(content)
    }
}
