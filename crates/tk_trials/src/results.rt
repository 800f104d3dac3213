//! Results of single calls of the crates below that the program doesn't print.
//!
//! The cause for which a text is no scope, and the id and the secret of a header. `ledger/checked`
//! has the results of facts.

use std::alloc::Global;
use tk_params::{Credentials, Params};
use tk_scope::{Scope, ScopeError};

// ---- scopes

// A name, a piece of text, how often it is repeated, what follows, and why the whole is refused.
type Text = (
    &'static str,
    &'static [u8],
    usize,
    &'static [u8],
    Option<ScopeError>,
);

#[rattlefmt::skip]
const TEXTS: &[Text] = &[
    ("two spaces", b"read ", 1, b" write", Some(ScopeError::Malformed)),
    ("nothing", b"", 0, b"", Some(ScopeError::Malformed)),
    ("a backslash", b"a ", 1, b"\\", Some(ScopeError::Malformed)),
    ("33 tokens", b"a ", 32, b"b", Some(ScopeError::TooMany)),
    ("32 tokens", b"a ", 31, b"b", None),
    ("1,025 letters", b"a", 1_025, b"", Some(ScopeError::TooLong)),
    ("1,024 letters", b"a", 1_024, b"", None),
    // The length is checked first, and the number of tokens last.
    ("1,025 spaces", b" ", 1_025, b"", Some(ScopeError::TooLong)),
    ("513 tokens", b"a ", 512, b"b", Some(ScopeError::TooLong)),
    ("33 tokens and a backslash", b"a ", 32, b"\\", Some(ScopeError::Malformed)),
];

fn repeated(alloc: Global, piece: &[u8], times: usize, behind: &[u8]) -> Option<Vec<u8>> {
    let mut text = Vec::new(alloc);
    for _ in 0..times {
        if text.extend_from_slice(piece).is_err() {
            return None;
        }
    }
    match text.extend_from_slice(behind) {
        Ok(()) => Some(text),
        Err(_) => None,
    }
}

fn refusal(alloc: Global, text: &[u8]) -> Option<ScopeError> {
    match Scope::read(alloc, text) {
        Ok(scope) => {
            drop(scope);
            None
        }
        Err(error) => Some(error),
    }
}

fn is_refused_so(alloc: Global, (_, piece, times, behind, want): Text) -> bool {
    match &repeated(alloc, piece, times, behind) {
        Some(text) => refusal(alloc, text.as_slice()) == want,
        None => false,
    }
}

#[test]
fn a_text_is_no_scope_for_the_first_cause(rt: HostRuntime) {
    for text in TEXTS {
        let name = text.0;
        assert!(rt; is_refused_so(rt.alloc(), *text), "{name}");
    }
}

// Returns whether the scope and its copy have this text.
fn copies_have(alloc: Global, scope: &Scope, text: &str) -> bool {
    match &scope.copy(alloc) {
        Ok(copy) => scope.text() == text && copy.text() == text,
        Err(_) => false,
    }
}

fn is_printed(alloc: Global, written: &[u8], text: &str) -> bool {
    match &Scope::read(alloc, written) {
        Ok(scope) => copies_have(alloc, scope, text),
        Err(_) => false,
    }
}

#[test]
fn a_scope_is_printed_in_order_without_doubles(rt: HostRuntime) {
    assert!(rt; is_printed(rt.alloc(), b"write read read", "read write"));
}

// ---- credentials

fn presents(alloc: Global, header: &[u8], params: &Params, id: &str, secret: &str) -> bool {
    match &Credentials::read(alloc, Some(header), params) {
        Ok(credentials) => credentials.id() == Some(id) && credentials.secret() == Some(secret),
        Err(_) => false,
    }
}

fn header_has(alloc: Global, header: &[u8], id: &str, secret: &str) -> bool {
    match &Params::read(alloc, b"") {
        Ok(params) => presents(alloc, header, params, id, secret),
        Err(_) => false,
    }
}

// The example of RFC 6749, 2.3.1.
const BASIC: &[u8] = b"Basic czZCaGRSa3F0MzpnWDFmQmF0M2JW";

#[test]
fn the_header_of_the_standard_has_its_id_and_its_secret(rt: HostRuntime) {
    assert!(rt; header_has(rt.alloc(), BASIC, "s6BhdRkqt3", "gX1fBat3bV"));
}
