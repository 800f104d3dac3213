//! The option `--redirects`: the kinds of redirection URIs that a client may have.

ghost use Rattle.std.specs.Prelude.{◌≡◌, Some, codes};
ghost use Rattle.std.specs.List.{list_all, list_any};
ghost use Rattle.std.specs.Str.{bytes_eq};
ghost use Rattle.clap.specs.Words.{first_of, found_of, rows_of};
ghost use Rattle.tokend.specs.Kinds as spec;

use clap::ArgMatches;
use tk_message::RedirectKinds;

// Returns whether there is a `--redirects` with another word than those of the kinds.
pub(crate) fn are_kinds_misnamed(matches: &ArgMatches<'_>) -> bool
    ensures { result
        ≡ spec.are_misnamed (first_of (codes "redirects") (rows_of (found_of matches.now))) }
{
    match matches.get_str("redirects") {
        Some(text) => !are_kinds(text),
        None => false,
    }
}

// Reads the kinds, if each word of `--redirects` is one. Without the option each URL is taken.
pub(crate) fn read_redirects(matches: &ArgMatches<'_>) -> Option<Option<RedirectKinds>>
    ensures { result
        ≡ spec.kinds_named (first_of (codes "redirects") (rows_of (found_of matches.now))) }
{
    match matches.get_str("redirects") {
        Some(text) => kinds_named(text),
        None => Some(None),
    }
}

// Returns the kinds that a value of `--redirects` lists, if each of its words is one.
fn kinds_named(text: &str) -> Option<Option<RedirectKinds>>
    ensures { result ≡ spec.kinds_named (Some text.now) }
{
    if !are_kinds(text) {
        return None;
    }
    Some(Some(RedirectKinds {
        https: lists(text, "https"),
        loopback: lists(text, "loopback"),
        app: lists(text, "app"),
    }))
}

// Returns whether each word between commas is that of a kind.
fn are_kinds(text: &str) -> bool
    ensures { result ≡ list_all spec.is_kind (spec.words_of text.now) }
{
    text.split(',').all(is_kind)
}

fn is_kind(word: &str) -> bool
    ensures { result ≡ spec.is_kind word.now }
{
    word == "https" || word == "loopback" || word == "app"
}

// Returns whether the word is one of those between commas.
pub(crate) fn lists(text: &str, word: &str) -> bool
    ensures { result ≡ list_any (bytes_eq word.now) (spec.words_of text.now) }
{
    text.split(',').any(|w| word == w)
}
