//! Whether a connection stays open behind a reply: `stays_by`.

ghost use Rattle.std.specs.Prelude.{◌≡◌, ℕ, List};
ghost use Rattle.tk_params.specs.Params.{Pairs};
ghost use Rattle.tk_edge.specs.HeadFields.{AreFields, IsField};
ghost use Rattle.tk_edge.specs.Staying as spec;

use crate::field::{Field, Fields};
use crate::judge::Judged;

// Returns whether the connection may stay open behind the reply to a head that was judged. `minor`
// is the minor version of the request.
pub(crate) fn stays_by(minor: u8, fields: &Fields<'_>, judged: &Judged) -> bool
    ensures { (pairs : Pairs) → AreFields fields.now pairs
        → result ≡ spec.stays_by minor pairs judged.now }
{
    minor == 1 && lets_stay(fields.connection) && is_read_whole(fields, judged)
}

// Returns whether the client lets its connection stay.
fn lets_stay(connection: Field<'_>) -> bool
    ensures { (values : List (List ℕ)) → IsField connection.entry values
        → result ≡ spec.lets_stay values }
{
    match connection {
        Field::Absent => true,
        Field::Value(text) => text.eq_ignore_ascii_case(b"keep-alive"),
        Field::Twice => false,
    }
}

// Returns whether nothing of a request is left unread behind its bytes.
fn is_read_whole(fields: &Fields<'_>, judged: &Judged) -> bool
    ensures { (pairs : Pairs) → AreFields fields.now pairs
        → result ≡ spec.is_read_whole pairs judged.now }
{
    match judged {
        Judged::Refused(_) => false,
        Judged::Query(_) | Judged::Vector | Judged::Notice(_) => has_no_body(fields),
        Judged::Body(..) => true,
    }
}

// Returns whether a head announces no body.
fn has_no_body(fields: &Fields<'_>) -> bool
    ensures { (pairs : Pairs) → AreFields fields.now pairs → result ≡ spec.has_no_body pairs }
{
    is_absent(fields.coding) && is_absent(fields.length)
}

fn is_absent(field: Field<'_>) -> bool
    ensures { (values : List (List ℕ)) → IsField field.entry values
        → result ≡ spec.is_absent values }
{
    matches!(field, Field::Absent)
}
