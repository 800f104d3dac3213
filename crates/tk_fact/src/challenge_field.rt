//! The field of an optional challenge: a byte for its method, and its text if there is a challenge.

ghost use Rattle.std.specs.Prelude.{◌≡◌, ◌++◌, ◌↔◌, IfOk, IsTrue, OnOk};
ghost use Rattle.tk_format.specs.Format.{via};
ghost use Rattle.tk_format.specs.Reading.{Gets, GetsBy};
ghost use Rattle.tk_fact.specs.Fields.{challenge_field, challenge_with, challenge_bytes};

use std::alloc::{AllocError, Global};
use tk_format::{ReadError, Reader, Writer};
use tk_match::{Challenge, ChallengeError};

// Gives a proof the fact that an optional challenge has a spelling.
#[tactic(auto, using(crate::specs::FieldLaws::challenge_fits))]
pub(crate) fn known_challenge(value: &Option<Challenge>)
    ensures { challenge_field.Fits value.now }
{
    match value {
        None => {}
        Some(challenge) => {
            let _text = challenge.text();
        }
    }
}

pub(crate) fn read_challenge(
    alloc: Global,
    reader: &mut Reader<'_>,
) -> Result<Option<Challenge>, ReadError>
    ensures { Gets (λ c. c) challenge_field result reader.old reader.new }
{
    match reader.take_u8().ok_or(ReadError::Malformed)? {
        0 => Ok(None),
        1 => read_with(alloc, false, reader),
        2 => read_with(alloc, true, reader),
        _ => Err(ReadError::Malformed),
    }
}

// Reads the text of a challenge, whose method is S256 if `is_s256` holds and otherwise plain.
#[tactic(auto, using(crate::specs::FieldLaws::plain_challenge, crate::specs::FieldLaws::s256_challenge))]
fn read_with(
    alloc: Global,
    is_s256: bool,
    reader: &mut Reader<'_>,
) -> Result<Option<Challenge>, ReadError>
    ensures { GetsBy (via (challenge_with is_s256) challenge_bytes) result reader.old reader.new }
{
    let Some(bytes) = reader.take_text() else {
        return Err(ReadError::Malformed);
    };
    let method = if is_s256 {
        b"S256".as_slice()
    } else {
        b"plain".as_slice()
    };
    match Challenge::read(alloc, method, bytes) {
        Ok(challenge) => Ok(Some(challenge)),
        Err(ChallengeError::Method) => Err(ReadError::Malformed),
        Err(ChallengeError::Malformed) => Err(ReadError::Malformed),
        Err(ChallengeError::Memory) => Err(ReadError::Memory),
    }
}

pub(crate) fn write_challenge(
    value: &Option<Challenge>,
    writer: &mut Writer,
) -> Result<(), AllocError>
    requires { challenge_field.Fits value.now }
    ensures { OnOk result (writer.new ≡ writer.old ++ challenge_field.spell value.now) }
{
    match value {
        None => writer.put_u8(0),
        Some(challenge) => {
            writer.put_u8(if challenge.is_s256() { 2 } else { 1 })?;
            writer.put_text(challenge.text().as_bytes())
        }
    }
}

pub(crate) fn copy_challenge(
    alloc: Global,
    value: &Option<Challenge>,
) -> Result<Option<Challenge>, AllocError>
    ensures { IfOk result (λ copy. copy ≡ value.now) }
{
    match value {
        None => Ok(None),
        Some(challenge) => {
            let copy = challenge.copy(alloc)?;
            Ok(Some(copy))
        }
    }
}

pub(crate) fn same_challenge(left: &Option<Challenge>, right: &Option<Challenge>) -> bool
    ensures { IsTrue result ↔ (left.now ≡ right.now) }
{
    match (left, right) {
        (None, None) => true,
        (Some(left), Some(right)) => left.same(right),
        (None, Some(_)) => false,
        (Some(_), None) => false,
    }
}
