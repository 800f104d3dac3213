//! Decides by Content-Type whether a body is a form: `is_form_type`.

ghost use Rattle.std.specs.Prelude.{◌≡◌};
ghost use Rattle.tk_edge.specs.MediaType.{is_form, media_type_of, without_end};

use crate::path::place_of;

// Returns whether the media type is a form's, in any case and with any parameters.
pub(crate) fn is_form_type(value: &[u8]) -> bool
    ensures { result ≡ is_form value.now }
{
    trim_end(media_type(value)).eq_ignore_ascii_case(b"application/x-www-form-urlencoded")
}

// Returns the media type before its parameters.
fn media_type(value: &[u8]) -> &[u8]
    ensures { result.now ≡ media_type_of value.now }
{
    &value[..place_of(value, b';')]
}

// Returns the text without the spaces and tabs at its end.
fn trim_end(text: &[u8]) -> &[u8]
    ensures { result.now ≡ without_end text.now }
{
    let mut rest = text;
    'ends: while let Some((last, front)) = rest.split_last() {
        if *last != b' ' && *last != b'\t' {
            break;
        }
        rest = front;
    }
    rest
}
