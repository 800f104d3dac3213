//! The causes for which a list of redirection URIs and a challenge are refused.
//!
//! The program prints one error for all of them.

use std::alloc::Global;
use tk_match::{Challenge, ChallengeError, RedirectError, Redirects};

#[derive(Clone, Copy, PartialEq, Eq)]
enum Cause {
    // The list isn't refused.
    Nothing,
    Empty,
    TooMany,
    Method,
    Malformed,
    Memory,
}

fn cause_of_list(read: Result<Redirects, RedirectError>) -> Cause {
    match read {
        Ok(redirects) => {
            drop(redirects);
            Cause::Nothing
        }
        Err(RedirectError::Empty) => Cause::Empty,
        Err(RedirectError::TooMany) => Cause::TooMany,
        Err(RedirectError::Malformed) => Cause::Malformed,
        Err(RedirectError::Memory) => Cause::Memory,
    }
}

const GOOD: &[u8] = b"https://app.example/cb";

// A URI without a scheme: good for a fact of another region, and bad for a registration.
const PATH: &[u8] = b"/cb";

// A name, URIs, and why they are refused at a registration, and as those of a fact.
#[rattlefmt::skip]
const LISTS: &[(&str, &[&[u8]], Cause, Cause)] = &[
    ("no URI", &[], Cause::Empty, Cause::Empty),
    ("eight URIs", &[GOOD; 8], Cause::Nothing, Cause::Nothing),
    ("nine URIs", &[GOOD; 9], Cause::TooMany, Cause::TooMany),
    ("nine paths", &[PATH; 9], Cause::TooMany, Cause::TooMany),
    ("a path", &[PATH], Cause::Malformed, Cause::Nothing),
    ("a path behind a URI", &[GOOD, PATH], Cause::Malformed, Cause::Nothing),
    ("a fragment", &[b"https://app.example/cb#"], Cause::Malformed, Cause::Malformed),
    ("an empty URI", &[b""], Cause::Malformed, Cause::Malformed),
];

#[test]
fn a_list_of_uris_is_refused_for_the_first_cause(rt: HostRuntime) {
    for (name, uris, registered, kept) in LISTS {
        let alloc = rt.alloc();
        assert!(rt;
            cause_of_list(Redirects::new(alloc, uris)) == *registered,
            "{name}"
        );
        assert!(rt;
            cause_of_list(Redirects::kept(alloc, uris)) == *kept,
            "{name}, kept"
        );
    }
}

fn refusal(alloc: Global, method: &[u8], text: &[u8]) -> Cause {
    match Challenge::read(alloc, method, text) {
        Ok(challenge) => {
            drop(challenge);
            Cause::Nothing
        }
        Err(ChallengeError::Method) => Cause::Method,
        Err(ChallengeError::Malformed) => Cause::Malformed,
        Err(ChallengeError::Memory) => Cause::Memory,
    }
}

const LETTERS: [u8; 129] = [b'a'; 129];

fn is_cause(alloc: Global, method: &[u8], letters: usize, want: Cause) -> bool {
    match LETTERS.get(..letters) {
        Some(text) => refusal(alloc, method, text) == want,
        None => false,
    }
}

// A method, a number of letters, and why a challenge of both is refused.
const CHALLENGES: &[(&[u8], usize, Cause)] = &[
    (b"S512", 42, Cause::Method),
    (b"S512", 43, Cause::Method),
    (b"plain", 42, Cause::Malformed),
    (b"plain", 43, Cause::Nothing),
    (b"plain", 128, Cause::Nothing),
    (b"plain", 129, Cause::Malformed),
    (b"S256", 42, Cause::Malformed),
    (b"S256", 43, Cause::Nothing),
];

#[test]
fn a_challenge_is_refused_for_the_first_cause(rt: HostRuntime) {
    for (index, (method, letters, want)) in CHALLENGES.iter().enumerate() {
        assert!(rt;
            is_cause(rt.alloc(), method, *letters, *want),
            "row {index}"
        );
    }
}
