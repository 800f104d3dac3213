//! Writes a JSON object, one member after the other.
//!
//! `begin` takes the memory, `put_text` and its neighbours write members, and `end` returns the
//! text.

ghost use Rattle.std.specs.Prelude.{◌≡◌, [], ◌∷◌, ◌++◌, IfOk, OnOk, decimal};
ghost use Rattle.json.specs.Token.{begin_object, end_object, key, string, number, boolean};
ghost use Rattle.json.specs.Tree.{json_tokens};
ghost use Rattle.serde_json.specs.Data.{Members, object};
ghost use Rattle.serde_json.specs.Written.{compact_text, outline};
ghost use Rattle.tk_handle.specs.Handle.{handle_text};

use json::Writer;
use std::alloc::{AllocError, Global};
use tk_handle::Handle;

// Begins an object, with room for the given number of bytes.
pub(crate) fn begin(alloc: Global, room: usize) -> Result<Writer, AllocError>
    ensures before { IfOk result (λ out. out.before ≡ []) }
    ensures tokens { IfOk result (λ out. out.tokens ≡ begin_object ∷ []) }
{
    let mut out = Writer::new(Vec::with_capacity(alloc, room)?);
    out.begin_object()?;
    Ok(out)
}

// Writes a member that is a text.
pub(crate) fn put_text(out: &mut Writer, name: &str, text: &str) -> Result<(), AllocError>
    ensures ok { OnOk result
        (out.new.tokens ≡ out.old.tokens ++ key name.now ∷ string text.now ∷ []) }
    ensures before { OnOk result (out.new.before ≡ out.old.before) }
{
    out.key(name)?;
    out.string(text)
}

// Writes a member that is a handle's text.
pub(crate) fn put_handle(out: &mut Writer, name: &str, handle: &Handle) -> Result<(), AllocError>
    ensures ok { OnOk result
        (out.new.tokens ≡ out.old.tokens ++ key name.now ∷ string (handle_text handle.now) ∷ []) }
    ensures before { OnOk result (out.new.before ≡ out.old.before) }
{
    let text = handle.text();
    let Ok(text) = str::from_utf8(&text) else {
        unreachable!("base64 is ASCII");
    };
    put_text(out, name, text)
}

// Writes a member that is a number.
pub(crate) fn put_number(out: &mut Writer, name: &str, value: u64) -> Result<(), AllocError>
    ensures ok { OnOk result
        (out.new.tokens ≡ out.old.tokens ++ key name.now ∷ number (decimal value) ∷ []) }
    ensures before { OnOk result (out.new.before ≡ out.old.before) }
{
    out.key(name)?;
    out.u64(value)
}

// Writes a member that is true or false.
pub(crate) fn put_flag(out: &mut Writer, name: &str, flag: bool) -> Result<(), AllocError>
    ensures ok { OnOk result
        (out.new.tokens ≡ out.old.tokens ++ key name.now ∷ boolean flag ∷ []) }
    ensures before { OnOk result (out.new.before ≡ out.old.before) }
{
    out.key(name)?;
    out.boolean(flag)
}

// Ends an object and returns its text.
pub(crate) fn end(mut out: Writer) -> Result<Vec<u8>, AllocError>
    ensures { (members : Members) → out.before ≡ []
        → out.tokens ++ end_object ∷ [] ≡ json_tokens (outline (object members))
        → IfOk result (λ text. text.items ≡ compact_text (object members)) }
{
    out.end_object()?;
    Ok(out.into_inner())
}
