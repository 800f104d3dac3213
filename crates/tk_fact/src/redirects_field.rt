//! The field of a list of redirection URIs: their number in a byte, and each as a text.

ghost use Rattle.std.specs.Prelude.{◌≡◌, ◌++◌, OnOk, map};
ghost use Rattle.std.specs.List.{AllByRecursion, flat_map};
ghost use Rattle.tk_format.specs.Format.{repeated, text};
ghost use Rattle.tk_format.specs.Reading.{Gets};
ghost use Rattle.tk_fact.specs.Fields.{redirects_field};

use std::alloc::{AllocError, Global};
use tk_format::{ReadError, Reader, Writer};
use tk_match::{RedirectError, Redirects, Uri};

#[tactic(auto, using(crate::specs::FieldLaws::redirects_fit))]
pub(crate) fn known_redirects(redirects: &Redirects)
    ensures { redirects_field.Fits redirects.now }
{
    redirects.known();
}

pub(crate) fn read_redirects(alloc: Global, reader: &mut Reader<'_>) -> Result<Redirects, ReadError>
    ensures { Gets (λ r. r) redirects_field result reader.old reader.new }
{
    let Some(count) = reader.take_u8() else {
        return Err(ReadError::Malformed);
    };
    let uris = read_texts(alloc, count, reader)?;
    let kept = Redirects::kept(alloc, &uris);
    drop(uris);
    match kept {
        Ok(redirects) => Ok(redirects),
        Err(RedirectError::Empty) => Err(ReadError::Malformed),
        Err(RedirectError::TooMany) => Err(ReadError::Malformed),
        Err(RedirectError::Malformed) => Err(ReadError::Malformed),
        Err(RedirectError::Memory) => Err(ReadError::Memory),
    }
}

// Reads `count` texts, borrowed from the bytes that are read.
fn read_texts<'a>(
    alloc: Global,
    count: u8,
    reader: &mut Reader<'a>,
) -> Result<Vec<&'a [u8]>, ReadError>
    ensures { Gets (λ texts. map (λ x. x.now) texts.items)
        (repeated count text) result reader.old reader.new }
{
    let mut texts = Vec::new(alloc);
    for _ in 0..count {
        let text = reader.take_text().ok_or(ReadError::Malformed)?;
        texts.push(text)?;
    }
    Ok(texts)
}

pub(crate) fn write_redirects(redirects: &Redirects, writer: &mut Writer) -> Result<(), AllocError>
    requires { redirects_field.Fits redirects.now }
    ensures { OnOk result (writer.new ≡ writer.old ++ redirects_field.spell redirects.now) }
{
    writer.put_u8(redirects.uris().len() as u8)?;
    write_uris(redirects.uris(), writer)
}

fn write_uris(uris: &[Uri], writer: &mut Writer) -> Result<(), AllocError>
    requires { AllByRecursion text.Fits uris.now }
    ensures { OnOk result (writer.new ≡ writer.old ++ flat_map text.spell uris.now) }
{
    for uri in uris {
        writer.put_text(uri.as_bytes())?;
    }
    Ok(())
}
