//! The fields of a head that tokend reads, by their names in any case.
//!
//! `fields_of` finds them. A `Field` is absent, has one value, or is repeated.

ghost use Rattle.std.specs.Prelude.{◌≡◌, ℕ, List, [], ◌∷◌, ◌++◌, length, map, All};
ghost use Rattle.std.specs.Option.{option_copied};
ghost use Rattle.std.specs.Str.{str_eq_ignore_ascii_case};
ghost use Rattle.httparse.specs.Spans.{IsHeaderWithin, header_bytes};
ghost use Rattle.tk_params.specs.Params.{Pairs, only};
ghost use Rattle.tk_edge.specs.HeadFields.{AreFields, IsField, values_named, has_repeats, repeats};

use httparse::spans::HeaderSpan;

// The value of a head's field, if there is exactly one.
#[derive(Clone, Copy)]
pub(crate) enum Field<'b> {
    Absent,
    Value(&'b [u8]),
    Twice,
}

// The seven fields that tokend reads.
#[derive(Clone, Copy)]
pub(crate) struct Fields<'b> {
    pub(crate) authorization: Field<'b>,
    pub(crate) subject: Field<'b>,
    pub(crate) operator: Field<'b>,
    pub(crate) length: Field<'b>,
    pub(crate) kind: Field<'b>,
    pub(crate) coding: Field<'b>,
    pub(crate) connection: Field<'b>,
}

// Finds the fields that tokend reads among the headers of a head.
pub(crate) fn fields_of<'b>(buf: &'b [u8], headers: &[HeaderSpan]) -> Fields<'b>
    requires { All (IsHeaderWithin (length buf.now)) headers.now }
    ensures { AreFields result (map (header_bytes buf.now) headers.now) }
{
    Fields {
        authorization: value_named(buf, headers, b"authorization"),
        subject: value_named(buf, headers, b"x-subject"),
        operator: value_named(buf, headers, b"x-operator"),
        length: value_named(buf, headers, b"content-length"),
        kind: value_named(buf, headers, b"content-type"),
        coding: value_named(buf, headers, b"transfer-encoding"),
        connection: value_named(buf, headers, b"connection"),
    }
}

// Returns what the headers have under a name.
fn value_named<'b>(buf: &'b [u8], headers: &[HeaderSpan], name: &[u8]) -> Field<'b>
    requires { All (IsHeaderWithin (length buf.now)) headers.now }
    ensures { IsField result (values_named name.now (map (header_bytes buf.now) headers.now)) }
{
    let mut found = Field::Absent;
    for header in headers {
        if is_same(header.name.of(buf), name) {
            found = with_value(found, header.value.of(buf));
        }
    }
    found
}

fn is_same(a: &[u8], b: &[u8]) -> bool
    ensures { result ≡ str_eq_ignore_ascii_case a.now b.now }
{
    a.eq_ignore_ascii_case(b)
}

// Adds one more value to what was found.
fn with_value<'b>(found: Field<'b>, value: &'b [u8]) -> Field<'b>
    ensures { (values : List (List ℕ)) → IsField found.entry values
        → IsField result (values ++ value.entry.now ∷ []) }
{
    match found {
        Field::Absent => Field::Value(value),
        _ => Field::Twice,
    }
}

// Returns the value of a field that has exactly one.
pub(crate) fn only_value<'b>(field: &Field<'b>) -> Option<&'b [u8]>
    ensures { (values : List (List ℕ)) → IsField field.now values
        → option_copied result ≡ only values }
{
    match *field {
        Field::Value(text) => Some(text),
        _ => None,
    }
}

// Returns whether a field is repeated that may be given only once.
pub(crate) fn any_repeats(fields: &Fields<'_>) -> bool
    ensures { (pairs : Pairs) → AreFields fields.now pairs → result ≡ has_repeats pairs }
{
    is_twice(&fields.authorization)
        || is_twice(&fields.length)
        || is_twice(&fields.kind)
        || is_twice(&fields.subject)
        || is_twice(&fields.operator)
}

fn is_twice(field: &Field<'_>) -> bool
    ensures { (values : List (List ℕ)) → IsField field.now values → result ≡ repeats values }
{
    matches!(field, Field::Twice)
}
