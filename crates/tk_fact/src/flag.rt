//! The field of a flag: 0 for no, 1 for yes.

ghost use Rattle.std.specs.Prelude.{◌≡◌, ◌++◌, OnOk};
ghost use Rattle.tk_format.specs.Reading.{Reads};
ghost use Rattle.tk_fact.specs.Fields.{flag_field};

use std::alloc::AllocError;
use tk_format::{Reader, Writer};

pub(crate) fn read_flag(reader: &mut Reader<'_>) -> Option<bool>
    ensures { Reads (λ b. b) flag_field result reader.old reader.new }
{
    match reader.take_u8()? {
        0 => Some(false),
        1 => Some(true),
        _ => None,
    }
}

pub(crate) fn write_flag(value: bool, writer: &mut Writer) -> Result<(), AllocError>
    ensures { OnOk result (writer.new ≡ writer.old ++ flag_field.spell value) }
{
    writer.put_u8(if value { 1 } else { 0 })
}
