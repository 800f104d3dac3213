//! The field of a scope: its printed form. No other text of the same tokens is read.

ghost use Rattle.std.specs.Prelude.{◌≡◌, ◌++◌, OnOk};
ghost use Rattle.tk_format.specs.Reading.{Gets};
ghost use Rattle.tk_fact.specs.Fields.{scope_field};

use std::alloc::{AllocError, Global};
use tk_format::{ReadError, Reader, Writer};
use tk_scope::{Scope, ScopeError};

pub(crate) fn known_scope(scope: &Scope)
    ensures { scope_field.Fits scope.now }
{
    let _text = scope.text();
}

pub(crate) fn read_scope(alloc: Global, reader: &mut Reader<'_>) -> Result<Scope, ReadError>
    ensures { Gets (λ s. s) scope_field result reader.old reader.new }
{
    let Some(bytes) = reader.take_text() else {
        return Err(ReadError::Malformed);
    };
    match Scope::read(alloc, bytes) {
        Ok(scope) => {
            if scope.text().as_bytes() == bytes {
                Ok(scope)
            } else {
                drop(scope);
                Err(ReadError::Malformed)
            }
        }
        Err(ScopeError::TooLong) => Err(ReadError::Malformed),
        Err(ScopeError::Malformed) => Err(ReadError::Malformed),
        Err(ScopeError::TooMany) => Err(ReadError::Malformed),
        Err(ScopeError::Memory) => Err(ReadError::Memory),
    }
}

pub(crate) fn write_scope(scope: &Scope, writer: &mut Writer) -> Result<(), AllocError>
    ensures { OnOk result (writer.new ≡ writer.old ++ scope_field.spell scope.now) }
{
    writer.put_text(scope.text().as_bytes())
}
