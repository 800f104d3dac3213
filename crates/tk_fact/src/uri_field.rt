//! The field of a redirection URI.

ghost use Rattle.std.specs.Prelude.{◌≡◌, ◌++◌, OnOk};
ghost use Rattle.tk_format.specs.Reading.{Gets};
ghost use Rattle.tk_fact.specs.Fields.{uri_field};

use std::alloc::{AllocError, Global};
use tk_format::{ReadError, Reader, Writer};
use tk_match::{RedirectError, Uri};

#[tactic(auto, using(crate::specs::FieldLaws::uri_fits))]
pub(crate) fn known_uri(uri: &Uri)
    ensures { uri_field.Fits uri.now }
{
    let _text = uri.as_str();
}

pub(crate) fn read_uri(alloc: Global, reader: &mut Reader<'_>) -> Result<Uri, ReadError>
    ensures { Gets (λ u. u) uri_field result reader.old reader.new }
{
    let Some(bytes) = reader.take_text() else {
        return Err(ReadError::Malformed);
    };
    match Uri::read(alloc, bytes) {
        Ok(uri) => Ok(uri),
        Err(RedirectError::Memory) => Err(ReadError::Memory),
        Err(_) => Err(ReadError::Malformed),
    }
}

pub(crate) fn write_uri(uri: &Uri, writer: &mut Writer) -> Result<(), AllocError>
    requires { uri_field.Fits uri.now }
    ensures { OnOk result (writer.new ≡ writer.old ++ uri_field.spell uri.now) }
{
    writer.put_text(uri.as_bytes())
}
