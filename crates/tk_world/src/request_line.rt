//! The requests of lines, as bytes: a whole one, and short forms for common ones. `asked` makes
//! both.

ghost use Rattle.std.specs.Prelude.{◌≡◌, IfOk, string_bytes};
ghost use Rattle.std.specs.List.{list_all};
ghost use Rattle.std.specs.Option.{option_copied};
ghost use Rattle.tk_put.specs.Put.{field_line};
ghost use Rattle.tk_world.specs.Line.{bytes_in, texts};
ghost use Rattle.tk_world.specs.RequestLine as spec;

use itoa::Buffer;
use std::alloc::{AllocError, Global};
use tk_put::{field_line, joined};

/// Returns the request of a line, given its first field and the fields after the moment.
///
/// The forms are those of [`Event::read_line`](crate::Event::read_line) that are requests. `None`
/// means that the fields have none of these forms. A POST states the length of its body. Fields are
/// copied into the body or the query as they are, without encoding.
///
/// # Errors
///
/// `AllocError` if memory runs out.
pub(crate) fn asked(alloc: Global, name: &str, form: &[&str]) -> Result<Option<Vec<u8>>, AllocError>
    ensures { IfOk result (λ request. bytes_in request ≡ spec.asked_of name.now (texts form.now)) }
{
    if name == "req" {
        return whole(alloc, form);
    }
    if name == "client" {
        return client(alloc, form);
    }
    if name == "retire" {
        return retire(alloc, form);
    }
    if name == "signout" {
        return sign_out(alloc, form);
    }
    if name == "look" {
        return look(alloc, form);
    }
    Ok(None)
}

// ---- the forms of requests

// Makes the request of a `req` line.
fn whole(alloc: Global, form: &[&str]) -> Result<Option<Vec<u8>>, AllocError>
    ensures { IfOk result (λ request. bytes_in request ≡ spec.whole_of (texts form.now)) }
{
    match form {
        [method, target, auth, subject, body] => {
            request_of(alloc, method, target, auth, subject, body)
        }
        _ => Ok(None),
    }
}

// Makes the request of a `client` line.
fn client(alloc: Global, form: &[&str]) -> Result<Option<Vec<u8>>, AllocError>
    ensures { IfOk result (λ request. bytes_in request ≡ spec.client_of (texts form.now)) }
{
    match form {
        [kind, secret, scope, uris] => {
            let body = client_form(alloc, kind, secret, scope, uris)?;
            request_of(alloc, "POST", "/admin/client", "-", "-", body.as_str())
        }
        _ => Ok(None),
    }
}

// Returns the form that a `client` line posts.
fn client_form(
    alloc: Global,
    kind: &str,
    secret: &str,
    scope: &str,
    uris: &str,
) -> Result<String, AllocError>
    ensures { IfOk result (λ text. string_bytes text
        ≡ spec.client_form kind.now secret.now scope.now uris.now) }
{
    [
        "kind=",
        kind,
        given(secret, "&secret="),
        given(secret, secret),
        "&scope=",
        scope,
        "&redirects=",
        uris,
    ]
    .concat(alloc)
}

// Returns the text unless the value is `-`.
fn given<'a>(value: &str, text: &'a str) -> &'a str
    ensures { result.now ≡ spec.given value.now text.now }
{
    if value == "-" {
        return "";
    }
    text
}

// Makes the request of a `retire` line.
fn retire(alloc: Global, form: &[&str]) -> Result<Option<Vec<u8>>, AllocError>
    ensures { IfOk result (λ request. bytes_in request ≡ spec.retire_of (texts form.now)) }
{
    match form {
        [id] => {
            let body = ["client_id=", id].concat(alloc)?;
            request_of(alloc, "POST", "/admin/retire", "-", "-", body.as_str())
        }
        _ => Ok(None),
    }
}

// Makes the request of a `signout` line.
fn sign_out(alloc: Global, form: &[&str]) -> Result<Option<Vec<u8>>, AllocError>
    ensures { IfOk result (λ request. bytes_in request ≡ spec.sign_out_of (texts form.now)) }
{
    match form {
        [subject] => {
            let body = ["subject=", subject].concat(alloc)?;
            request_of(alloc, "POST", "/admin/signout", "-", "-", body.as_str())
        }
        _ => Ok(None),
    }
}

// Makes the request of a `look` line.
fn look(alloc: Global, form: &[&str]) -> Result<Option<Vec<u8>>, AllocError>
    ensures { IfOk result (λ request. bytes_in request ≡ spec.look_of (texts form.now)) }
{
    match form {
        [id] => {
            let target = ["/admin/client?client_id=", id].concat(alloc)?;
            request_of(alloc, "GET", target.as_str(), "-", "-", "-")
        }
        _ => Ok(None),
    }
}

// ---- the bytes of a request

// Returns the bytes of a request if its method is one or more capital letters.
fn request_of(
    alloc: Global,
    method: &str,
    target: &str,
    auth: &str,
    subject: &str,
    body: &str,
) -> Result<Option<Vec<u8>>, AllocError>
    ensures { IfOk result (λ request. bytes_in request
        ≡ spec.request_of method.now target.now auth.now subject.now body.now) }
{
    if !is_method(method.as_bytes()) {
        return Ok(None);
    }
    let body = body_in(body);
    let bytes = request_bytes(alloc, method, target, auth, subject, body)?;
    Ok(Some(bytes))
}

// Returns whether a name is one or more capital letters.
fn is_method(name: &[u8]) -> bool
    ensures { result ≡ list_all spec.is_capital name.now }
{
    name.iter().all(|b| b'A' <= *b && *b <= b'Z')
}

// Returns the body that a field stands for: no bytes for `-`.
fn body_in(text: &str) -> &[u8]
    ensures { result.now ≡ spec.body_in text.now }
{
    if text == "-" {
        return &[];
    }
    text.as_bytes()
}

// Returns the bytes of a request, by the fields of its line.
fn request_bytes(
    alloc: Global,
    method: &str,
    target: &str,
    auth: &str,
    subject: &str,
    body: &[u8],
) -> Result<Vec<u8>, AllocError>
    ensures { IfOk result (λ bytes. bytes.items
        ≡ spec.request_bytes method.now target.now auth.now subject.now body.now) }
{
    let auth = line_of(alloc, b"Authorization: Basic ", auth)?;
    let subject = line_of(alloc, b"X-Subject: ", subject)?;
    let post = post_lines(alloc, method, body)?;
    let (method, target) = (method.as_bytes(), target.as_bytes());
    joined_request(alloc, method, target, &auth, &subject, &post, body)
}

// Joins the parts of a request, which live equally long.
fn joined_request<'a>(
    alloc: Global,
    method: &'a [u8],
    target: &'a [u8],
    auth: &'a [u8],
    subject: &'a [u8],
    post: &'a [u8],
    body: &'a [u8],
) -> Result<Vec<u8>, AllocError>
    ensures { IfOk result (λ bytes. bytes.items
        ≡ spec.assembly method.now target.now auth.now subject.now post.now body.now) }
{
    let host = b" HTTP/1.1\r\nHost: tokend\r\n";
    let parts = [
        method, b" ", target, host, auth, subject, post, b"\r\n", body,
    ];
    joined(alloc, &parts)
}

// Returns the line of a field, or no bytes for the value `-`.
fn line_of(alloc: Global, name: &[u8], value: &str) -> Result<Vec<u8>, AllocError>
    ensures { IfOk result (λ line. line.items ≡ field_line name.now (spec.value_in value.now)) }
{
    field_line(alloc, name, value_in(value))
}

// Returns the value of a field, which `-` leaves out.
fn value_in(text: &str) -> Option<&[u8]>
    ensures { option_copied result ≡ spec.value_in text.now }
{
    if text == "-" {
        return None;
    }
    Some(text.as_bytes())
}

// Returns the lines of a POST that describe its body.
fn post_lines(alloc: Global, method: &str, body: &[u8]) -> Result<Vec<u8>, AllocError>
    ensures { IfOk result (λ lines. lines.items ≡ spec.post_lines method.now body.now) }
{
    if method != "POST" {
        return Ok(Vec::new(alloc));
    }
    let mut digits = Buffer::new();
    let size = digits.format(body.len()).as_bytes();
    let kind = b"Content-Type: application/x-www-form-urlencoded\r\nContent-Length: ";
    joined(alloc, &[kind, size, b"\r\n"])
}
