//! The field of a SHA-256 digest.

ghost use Rattle.tk_format.specs.Reading.{Reads};
ghost use Rattle.tk_fact.specs.Fields.{digest_field};

use tk_format::Reader;

pub(crate) fn known_digest(value: [u8; 32])
    ensures { digest_field.Fits value }
{}

pub(crate) fn read_digest(reader: &mut Reader<'_>) -> Option<[u8; 32]>
    ensures { Reads (λ d. d) digest_field result reader.old reader.new }
{
    let bytes = reader.take_bytes(32)?;
    let mut digest = [0; 32];
    digest.copy_from_slice(bytes);
    Some(digest)
}
