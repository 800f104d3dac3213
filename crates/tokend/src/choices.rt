//! The options `--revoke-unseen`, `--consent`, `--redirects`, `--refresh-seen` and `--challenge`:
//! what a region does if the profile leaves a choice.

ghost use Rattle.std.specs.Prelude.{◌≡◌, IfSome, IfNone, Some, codes, is_some};
ghost use Rattle.clap.specs.Words.{first_of, found_of, rows_of, subcommand_rows_of};
ghost use Rattle.tokend.specs.Choices.{HasChoices, consent_named, is_consent_misnamed};
ghost use Rattle.tokend.specs.Choices.{IsNoChoice, is_unseen_misnamed, unseen_named};
ghost use Rattle.tokend.specs.Choices.{is_refresh_seen_misnamed, refresh_seen_named};
ghost use Rattle.tokend.specs.Task.{has_misnamed, misnames_word};

use crate::ahead::is_ahead_misnamed;
use crate::challenges::{are_rules_misnamed, read_rules};
use crate::kinds::{are_kinds_misnamed, read_redirects};
use crate::notices::is_issuer_misnamed;
use crate::ranges::{is_accept_misnamed, is_range_misnamed};
use clap::ArgMatches;
use tk_message::{Choices, ConsentReuse, RefreshSeen, UnseenRevocation};

// Returns the error text of the first option whose value is none of its words, if there is one.
pub(crate) fn misnamed_word(matches: &ArgMatches<'_>) -> Option<&'static str>
    ensures { is_some result ≡ misnames_word (subcommand_rows_of matches.now) }
{
    match matches.subcommand() {
        Some((_, values)) => misnamed_in(values),
        None => None,
    }
}

// Returns the error text of the first of these options whose value is none of its words.
fn misnamed_in(matches: &ArgMatches<'_>) -> Option<&'static str>
    ensures { is_some result ≡ has_misnamed (rows_of (found_of matches.now)) }
{
    if is_ahead_misnamed(matches) {
        return Some("--ahead takes 'taken' or 'refused'");
    }
    if is_range_misnamed(matches) {
        return Some("--range takes FIRST-LAST, of 1 to 65535, with the number of --region");
    }
    if is_accept_misnamed(matches) {
        return Some("--accept takes FIRST-LAST, of 1 to 65535, with commas between");
    }
    if is_unseen_misnamed(matches) {
        return Some("--revoke-unseen takes 'any', 'authenticated' or 'none'");
    }
    if is_consent_misnamed(matches) {
        return Some("--consent takes 'new' or 'held'");
    }
    if are_kinds_misnamed(matches) {
        return Some("--redirects takes 'https', 'loopback' and 'app', with commas between");
    }
    if is_refresh_seen_misnamed(matches) {
        return Some("--refresh-seen takes 'all' or 'client'");
    }
    if are_rules_misnamed(matches) {
        return Some("--challenge takes 'all' and 'S256', with a comma between");
    }
    if is_issuer_misnamed(matches) {
        return Some(
            "--issuer takes https://HOST, perhaps with :PORT and /PATH, or http://127.0.0.1",
        );
    }
    None
}

// Returns whether there is a `--revoke-unseen` whose value is none of the three.
fn is_unseen_misnamed(matches: &ArgMatches<'_>) -> bool
    ensures { result
        ≡ is_unseen_misnamed (first_of (codes "revoke-unseen") (rows_of (found_of matches.now))) }
{
    match matches.get_str("revoke-unseen") {
        Some(text) => unseen_named(text).is_none(),
        None => false,
    }
}

// Reads the choices, if each option has one of its words.
pub(crate) fn read_choices(matches: &ArgMatches<'_>) -> Option<Choices>
    ensures choices { IfSome result (HasChoices (rows_of (found_of matches.now))) }
    ensures none { IfNone result (IsNoChoice (rows_of (found_of matches.now))) }
{
    let Some(unseen) = read_unseen(matches) else {
        return None;
    };
    let Some(consent) = read_consent(matches) else {
        return None;
    };
    let Some(redirects) = read_redirects(matches) else {
        return None;
    };
    let Some(refresh_seen) = read_refresh_seen(matches) else {
        return None;
    };
    let Some(challenge) = read_rules(matches) else {
        return None;
    };
    Some(Choices {
        unseen,
        consent,
        redirects,
        refresh_seen,
        challenge,
    })
}

// Reads who may revoke a token that the region has not seen, if the value is one of the three.
fn read_unseen(matches: &ArgMatches<'_>) -> Option<UnseenRevocation>
    ensures { result
        ≡ unseen_named (first_of (codes "revoke-unseen") (rows_of (found_of matches.now))) }
{
    match matches.get_str("revoke-unseen") {
        Some(text) => unseen_named(text),
        None => None,
    }
}

// Returns who may revoke a token that the region has not seen, by a value of `--revoke-unseen`.
fn unseen_named(text: &str) -> Option<UnseenRevocation>
    ensures { result ≡ unseen_named (Some text.now) }
{
    if text == "any" {
        return Some(UnseenRevocation::Any);
    }
    if text == "authenticated" {
        return Some(UnseenRevocation::Authenticated);
    }
    if text == "none" {
        return Some(UnseenRevocation::Nobody);
    }
    None
}

// Returns whether there is a `--consent` whose value is neither of the two.
fn is_consent_misnamed(matches: &ArgMatches<'_>) -> bool
    ensures { result
        ≡ is_consent_misnamed (first_of (codes "consent") (rows_of (found_of matches.now))) }
{
    match matches.get_str("consent") {
        Some(text) => consent_named(text).is_none(),
        None => false,
    }
}

// Reads what is done if a consent is given again, if the value is one of the two.
fn read_consent(matches: &ArgMatches<'_>) -> Option<ConsentReuse>
    ensures { result ≡ consent_named (first_of (codes "consent") (rows_of (found_of matches.now))) }
{
    match matches.get_str("consent") {
        Some(text) => consent_named(text),
        None => None,
    }
}

// Returns what is done if a consent is given again, by a value of `--consent`.
fn consent_named(text: &str) -> Option<ConsentReuse>
    ensures { result ≡ consent_named (Some text.now) }
{
    if text == "new" {
        return Some(ConsentReuse::New);
    }
    if text == "held" {
        return Some(ConsentReuse::Held);
    }
    None
}

// Returns whether there is a `--refresh-seen` whose value is neither of the two.
fn is_refresh_seen_misnamed(matches: &ArgMatches<'_>) -> bool
    ensures { result ≡ is_refresh_seen_misnamed
        (first_of (codes "refresh-seen") (rows_of (found_of matches.now))) }
{
    match matches.get_str("refresh-seen") {
        Some(text) => refresh_seen_named(text).is_none(),
        None => false,
    }
}

// Reads who sees refresh tokens, if the value is one of the two.
fn read_refresh_seen(matches: &ArgMatches<'_>) -> Option<RefreshSeen>
    ensures { result
        ≡ refresh_seen_named (first_of (codes "refresh-seen") (rows_of (found_of matches.now))) }
{
    match matches.get_str("refresh-seen") {
        Some(text) => refresh_seen_named(text),
        None => None,
    }
}

// Returns who sees refresh tokens, by a value of `--refresh-seen`.
fn refresh_seen_named(text: &str) -> Option<RefreshSeen>
    ensures { result ≡ refresh_seen_named (Some text.now) }
{
    if text == "all" {
        return Some(RefreshSeen::ByAll);
    }
    if text == "client" {
        return Some(RefreshSeen::ByClient);
    }
    None
}
