//! Writes the members of a JSON object, each with the comma before it.

ghost use Rattle.std.specs.Prelude.{◌≡◌, ◌++◌, ◌<◌, OnOk, codes, decimal};
ghost use Rattle.std.specs.List.{flat_map};
ghost use Rattle.tk_handle.specs.DotText.{dot_text};
ghost use Rattle.tk_listing.specs.Calendar.{moment_text};
ghost use Rattle.tk_listing.specs.Members as spec;

use crate::calendar::put_moment;
use itoa::Buffer;
use std::alloc::AllocError;
use tk_format::Writer;
use tk_handle::{Dot, Moment};
use tk_match::Uri;

/// Writes a comma, the name of a member, and a colon.
#[tactic(auto, unfolding(crate::specs::Members::named))]
pub(crate) fn put_name(writer: &mut Writer, name: &[u8]) -> Result<(), AllocError>
    ensures { OnOk result (writer.new ≡ writer.old ++ spec.named name.now) }
{
    writer.put_bytes(b",\"")?;
    writer.put_bytes(name)?;
    writer.put_bytes(b"\":")
}

/// Writes a member whose text needs no escapes.
#[tactic(auto, unfolding(crate::specs::Members::plain_member))]
pub(crate) fn put_plain(writer: &mut Writer, name: &[u8], text: &[u8]) -> Result<(), AllocError>
    ensures { OnOk result (writer.new ≡ writer.old ++ spec.plain_member name.now text.now) }
{
    put_name(writer, name)?;
    writer.put_bytes(b"\"")?;
    writer.put_bytes(text)?;
    writer.put_bytes(b"\"")
}

/// Writes a member with a text of a fact.
#[tactic(auto, unfolding(crate::specs::Members::text_member))]
pub(crate) fn put_text(writer: &mut Writer, name: &[u8], text: &[u8]) -> Result<(), AllocError>
    ensures { OnOk result (writer.new ≡ writer.old ++ spec.text_member name.now text.now) }
{
    put_name(writer, name)?;
    put_quoted(writer, text)
}

/// Writes a text in quotation marks.
#[tactic(auto, unfolding(crate::specs::Members::quoted))]
pub(crate) fn put_quoted(writer: &mut Writer, text: &[u8]) -> Result<(), AllocError>
    ensures { OnOk result (writer.new ≡ writer.old ++ spec.quoted text.now) }
{
    writer.put_bytes(b"\"")?;
    put_escaped(writer, text)?;
    writer.put_bytes(b"\"")
}

// Writes the bytes of a text, with a backslash before those that need one.
fn put_escaped(writer: &mut Writer, text: &[u8]) -> Result<(), AllocError>
    ensures { OnOk result (writer.new ≡ writer.old ++ flat_map spec.escaped text.now) }
{
    for byte in text {
        put_byte(writer, *byte)?;
    }
    Ok(())
}

// Writes a byte of a text, with a backslash before it if it needs one.
fn put_byte(writer: &mut Writer, byte: u8) -> Result<(), AllocError>
    ensures { OnOk result (writer.new ≡ writer.old ++ spec.escaped byte) }
{
    if byte == b'"' || byte == b'\\' {
        writer.put_bytes(&[b'\\', byte])
    } else {
        writer.put_bytes(&[byte])
    }
}

/// Writes a member with bytes as hexadecimal digits.
#[tactic(auto, unfolding(crate::specs::Members::plain_member))]
pub(crate) fn put_hex(writer: &mut Writer, name: &[u8], bytes: &[u8]) -> Result<(), AllocError>
    ensures { OnOk result
        (writer.new ≡ writer.old ++ spec.plain_member name.now (spec.hex_text bytes.now)) }
{
    put_name(writer, name)?;
    writer.put_bytes(b"\"")?;
    put_digits(writer, bytes)?;
    writer.put_bytes(b"\"")
}

/// Writes bytes as hexadecimal digits.
#[tactic(auto, unfolding(crate::specs::Members::hex_text))]
pub(crate) fn put_digits(writer: &mut Writer, bytes: &[u8]) -> Result<(), AllocError>
    ensures { OnOk result (writer.new ≡ writer.old ++ spec.hex_text bytes.now) }
{
    for byte in bytes {
        put_hex_byte(writer, *byte)?;
    }
    Ok(())
}

// Writes a byte as two hexadecimal digits.
fn put_hex_byte(writer: &mut Writer, byte: u8) -> Result<(), AllocError>
    ensures { OnOk result (writer.new ≡ writer.old ++ spec.hex_byte byte) }
{
    writer.put_bytes(&[hex_digit(byte / 16), hex_digit(byte % 16)])
}

// Returns the digit of a number below 16.
fn hex_digit(number: u8) -> u8
    requires { number < 16 }
    ensures { result ≡ spec.hex_digit number }
{
    if number < 10 {
        48 + number
    } else {
        87 + number
    }
}

/// Writes a member with a list of URIs.
#[tactic(auto, unfolding(crate::specs::Members::texts_member))]
pub(crate) fn put_uris(writer: &mut Writer, name: &[u8], uris: &[Uri]) -> Result<(), AllocError>
    ensures { OnOk result (writer.new ≡ writer.old ++ spec.texts_member name.now uris.now) }
{
    put_name(writer, name)?;
    writer.put_bytes(b"[")?;
    put_list(writer, uris)?;
    writer.put_bytes(b"]")
}

// Writes URIs, with commas between them.
fn put_list(writer: &mut Writer, uris: &[Uri]) -> Result<(), AllocError>
    ensures { OnOk result (writer.new ≡ writer.old ++ spec.texts_list uris.now) }
{
    match uris.split_first() {
        Some((uri, more)) => {
            put_quoted(writer, uri.as_bytes())?;
            put_more(writer, more)
        }
        None => Ok(()),
    }
}

// Writes URIs, with a comma before each.
fn put_more(writer: &mut Writer, uris: &[Uri]) -> Result<(), AllocError>
    ensures { OnOk result (writer.new ≡ writer.old ++ spec.more_texts uris.now) }
{
    for uri in uris {
        put_next(writer, uri.as_bytes())?;
    }
    Ok(())
}

// Writes a comma, and a text in quotation marks.
fn put_next(writer: &mut Writer, text: &[u8]) -> Result<(), AllocError>
    ensures { OnOk result (writer.new ≡ writer.old ++ (codes "," ++ spec.quoted text.now)) }
{
    writer.put_bytes(b",")?;
    put_quoted(writer, text)
}

/// Writes a number in decimals.
pub(crate) fn put_decimal(writer: &mut Writer, number: u64) -> Result<(), AllocError>
    ensures { OnOk result (writer.new ≡ writer.old ++ decimal number) }
{
    let mut digits = Buffer::new();
    writer.put_bytes(digits.format(number).as_bytes())
}

/// Writes a member with a number.
#[tactic(auto, unfolding(crate::specs::Members::number_member))]
pub(crate) fn put_number(writer: &mut Writer, name: &[u8], number: u64) -> Result<(), AllocError>
    ensures { OnOk result (writer.new ≡ writer.old ++ spec.number_member name.now number) }
{
    put_name(writer, name)?;
    put_decimal(writer, number)
}

/// Writes a member with true or false.
#[tactic(auto, unfolding(crate::specs::Members::flag_member))]
pub(crate) fn put_flag(writer: &mut Writer, name: &[u8], flag: bool) -> Result<(), AllocError>
    ensures { OnOk result (writer.new ≡ writer.old ++ spec.flag_member name.now flag) }
{
    put_name(writer, name)?;
    if flag {
        writer.put_bytes(b"true")
    } else {
        writer.put_bytes(b"false")
    }
}

/// Writes a dot, as `R:S`.
pub(crate) fn put_dot_text(writer: &mut Writer, dot: Dot) -> Result<(), AllocError>
    ensures { OnOk result (writer.new ≡ writer.old ++ dot_text dot) }
{
    put_decimal(writer, u64::from(dot.region().number()))?;
    writer.put_bytes(b":")?;
    put_decimal(writer, dot.serial())
}

/// Writes a member with a dot.
#[tactic(auto, unfolding(crate::specs::Members::dot_member, crate::specs::Members::plain_member))]
pub(crate) fn put_dot(writer: &mut Writer, name: &[u8], dot: Dot) -> Result<(), AllocError>
    ensures { OnOk result (writer.new ≡ writer.old ++ spec.dot_member name.now dot) }
{
    put_name(writer, name)?;
    writer.put_bytes(b"\"")?;
    put_dot_text(writer, dot)?;
    writer.put_bytes(b"\"")
}

/// Writes a member with a moment as RFC 3339 writes it, and a member with its seconds.
#[tactic(auto, unfolding(crate::specs::Members::moment_member))]
pub(crate) fn put_time(writer: &mut Writer, name: &[u8], moment: Moment) -> Result<(), AllocError>
    ensures { OnOk result (writer.new ≡ writer.old ++ spec.moment_member name.now moment) }
{
    put_written(writer, name, moment)?;
    put_seconds(writer, name, moment.seconds())
}

// Writes a member with a moment as RFC 3339 writes it.
#[tactic(auto, unfolding(crate::specs::Members::plain_member))]
fn put_written(writer: &mut Writer, name: &[u8], moment: Moment) -> Result<(), AllocError>
    ensures { OnOk result
        (writer.new ≡ writer.old ++ spec.plain_member name.now (moment_text moment)) }
{
    put_name(writer, name)?;
    writer.put_bytes(b"\"")?;
    put_moment(writer, moment)?;
    writer.put_bytes(b"\"")
}

// Writes a member with the seconds of a moment.
#[tactic(auto, unfolding(crate::specs::Members::seconds_member))]
fn put_seconds(writer: &mut Writer, name: &[u8], seconds: u64) -> Result<(), AllocError>
    ensures { OnOk result (writer.new ≡ writer.old ++ spec.seconds_member name.now seconds) }
{
    writer.put_bytes(b",\"")?;
    writer.put_bytes(name)?;
    writer.put_bytes(b"_seconds\":")?;
    put_decimal(writer, seconds)
}
