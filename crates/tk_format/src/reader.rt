//! Reading from the front of bytes.

use std::marker::Model;

/// The bytes that are left to read.
///
/// Each `take_` method takes a value from the front. If the bytes do not begin with such a value,
/// the method returns `None` and takes nothing. Numbers have the high byte first.
#[derive(Drop)]
pub struct Reader<'a> {
    /// The bytes that are not yet taken.
    rest: &'a [u8],
}

impl<'a> Model for Reader<'a> {
    ghost use Rattle.std.specs.Prelude.{List, ℕ};

    ghost Value = { List ℕ };

    ghost view = { λ r. r.rest.now };
}

ghost use Rattle.std.specs.Prelude.{◌≡◌, ◌==◌, length, IfSome, IfNone};
ghost use Rattle.std.specs.Int.{w16, w64};
ghost use Rattle.tk_format.specs.Format.{byte, bytes_of, number, text};
ghost use Rattle.tk_format.specs.Reading.{Reads, ReadsMagic};

impl<'a> Reader<'a> {
    /// Returns a reader of all of these bytes.
    pub fn new(bytes: &'a [u8]) -> Reader<'a>
        ensures { result ≡ bytes.now }
    {
        Reader { rest: bytes }
    }

    /// Returns how many bytes are left.
    pub fn len(&self) -> usize
        ensures { result ≡ length self.now }
    {
        self.rest.len()
    }

    /// Returns whether no byte is left.
    pub fn is_empty(&self) -> bool
        ensures { result ≡ (length self.now == 0) }
    {
        self.rest.is_empty()
    }

    /// Takes one byte.
    pub fn take_u8(&mut self) -> Option<u8>
        ensures read { Reads (λ n. n) byte result self.old self.new }
        ensures none { IfNone result (self.new ≡ self.old) }
    {
        let (first, rest) = self.rest.split_first()?;
        self.rest = rest;
        Some(*first)
    }

    /// Takes a number of two bytes.
    #[tactic(auto, unfolding(crate::specs::Format::number_at))]
    pub fn take_u16(&mut self) -> Option<u16>
        ensures read { Reads (λ n. n) (number w16) result self.old self.new }
        ensures none { IfNone result (self.new ≡ self.old) }
    {
        let (front, rest) = self.rest.split_first_chunk::<2>()?;
        self.rest = rest;
        Some(u16::from_be_bytes(*front))
    }

    /// Takes a number of eight bytes.
    #[tactic(auto, unfolding(crate::specs::Format::number_at))]
    pub fn take_u64(&mut self) -> Option<u64>
        ensures read { Reads (λ n. n) (number w64) result self.old self.new }
        ensures none { IfNone result (self.new ≡ self.old) }
    {
        let (front, rest) = self.rest.split_first_chunk::<8>()?;
        self.rest = rest;
        Some(u64::from_be_bytes(*front))
    }

    /// Takes `count` bytes.
    #[tactic(auto, unfolding(crate::specs::Format::bytes_at))]
    pub fn take_bytes(&mut self, count: usize) -> Option<&'a [u8]>
        ensures read { Reads (λ s. s.now) (bytes_of count) result self.old self.new }
        ensures len { IfSome result (λ s. length s.now ≡ count) }
        ensures none { IfNone result (self.new ≡ self.old) }
    {
        let (front, rest) = self.rest.split_at_checked(count)?;
        self.rest = rest;
        Some(front)
    }

    /// Takes a length in two bytes, and then that number of bytes.
    #[tactic(auto, unfolding(crate::specs::Format::text_at))]
    pub fn take_text(&mut self) -> Option<&'a [u8]>
        ensures read { Reads (λ s. s.now) text result self.old self.new }
        ensures none { IfNone result (self.new ≡ self.old) }
    {
        let start = self.rest;
        let count = self.take_u16()?;
        let content = self.take_bytes(count as usize);
        if content.is_none() {
            self.rest = start;
        }
        content
    }

    /// Takes the bytes of `magic`, if the rest begins with them.
    #[tactic(auto, unfolding(crate::specs::Format::bytes_at))]
    pub fn take_magic(&mut self, magic: &[u8]) -> Option<()>
        ensures read { ReadsMagic magic.now result self.old self.new }
        ensures none { IfNone result (self.new ≡ self.old) }
    {
        let (front, rest) = self.rest.split_at_checked(magic.len())?;
        if front != magic {
            return None;
        }
        self.rest = rest;
        Some(())
    }
}
