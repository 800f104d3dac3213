//! Facts as they arrive from other regions, their bytes, and the handles of the tokens that they
//! mint.
//!
//! Clients have the scope `read write`; lives, if they have any, of 600, 3,600 and 604,800 seconds.
//! A code begins at 1,000 and ends at 1,060, its family at 90,000. Its tokens begin at 1,010, the
//! access token ends at 4,610 and the refresh token at 87,410. At even serials the facts that
//! operators make name one.

use std::alloc::Global;
use tk_fact::Fact;
use tk_handle::{Dot, Handle, Kind, RegionNumber, TokenId};

/// A region and a serial.
pub(super) type Place = (u16, u64);

/// A token: the dot at which it is minted, its kind, and the number of its random words.
pub(super) type Token = (Place, Kind, u64);

/// The body of a fact. Pairs of random words are those of an access token and a refresh token.
#[derive(Clone, Copy)]
pub(super) enum Says {
    ClientAdded,
    /// A client with lives of its own.
    ClientLimited,
    ClientRetired(Place),
    /// A consent to the client, for the scope of this text.
    ConsentGiven(Place, &'static [u8]),
    ConsentWithdrawn(Place),
    /// A code with these random words, to the client, by the consent.
    CodeIssued(u64, Place, Place),
    /// Such a code, whose family ends at the moment.
    CodeUntil(u64, Place, Place, u64),
    CodeRedeemed(Place, (u64, u64)),
    /// A rotation of the token minted there, to the tokens of the generation.
    RefreshRotated(Place, u16, (u64, u64)),
    /// A revocation by the client.
    TokenRevoked(Token, Place),
    ReuseSeen(Place, Kind),
    /// A sign-out of the subject of this text, at the moment.
    SubjectOut(&'static [u8], u64),
    /// An access token of the random words of this number, for the refresh token minted there.
    AccessRefreshed(Place, u64),
    /// A secret of the client, set at the turn, with the digest of this number.
    SecretSet(Place, u64, u8),
}

/// A fact: its dot and its body.
pub(super) type Told = (Place, Says);

pub(super) fn dot(place: Place) -> Option<Dot> {
    let region = RegionNumber::new(place.0)?;
    Dot::new(region, place.1)
}

/// Returns the digest of this number: 32 bytes of it.
pub(super) fn secret_digest(number: u8) -> [u8; 32] {
    [number; 32]
}

/// Returns a handle of the token, made of the random words of that number.
pub(super) fn handle(token: Token) -> Option<Handle> {
    let (place, kind, word) = token;
    let dot = dot(place)?;
    Some(Handle::mint(TokenId { dot, kind }, [word; 3]))
}

fn digest(token: Token) -> Option<[u8; 32]> {
    Some(handle(token)?.digest())
}

// Returns the bytes of a dot.
fn spelled(place: Place) -> [u8; 10] {
    let [high, low] = place.0.to_be_bytes();
    let [a, b, c, d, e, f, g, h] = place.1.to_be_bytes();
    [high, low, a, b, c, d, e, f, g, h]
}

fn joined(alloc: Global, parts: &[&[u8]]) -> Option<Vec<u8>> {
    let mut joined = Vec::new(alloc);
    for part in parts {
        if joined.extend_from_slice(part).is_err() {
            return None;
        }
    }
    Some(joined)
}

pub(super) const ANN: &[u8] = b"\x00\x03ann";

pub(super) const READ_WRITE: &[u8] = b"\x00\x0aread write";

const ADDED: &[u8] = b"\x01\x00\x00\x0aread write\x01\x00\x16https://app.example/cb";

// Such a client with lives.
const LIMITED: &[u8] = b"\x0d\x00\x00\x0aread write\x01\x00\x16https://app.example/cb\
    \x00\x00\x00\x00\x00\x00\x02\x58\x00\x00\x00\x00\x00\x00\x0e\x10\x00\x00\x00\x00\x00\x09\x3a\x80";

// The moments of a code.
const CODE_TIMES: &[u8] = b"\x00\x00\x00\x00\x00\x00\x03\xe8\x00\x00\x00\x00\x00\x00\x04\x24";

// The bytes of a code after the end of its family.
const CODE_END: &[u8] = b"\x00\x03ann\x00\x0aread write\x00\x16https://app.example/cb\x00\x00";

const FAMILY_END: u64 = 90_000;

// The moments of tokens, with the scopes after their ends.
const START: &[u8] = b"\x00\x00\x00\x00\x00\x00\x03\xf2";

const ACCESS_END: &[u8] = b"\x00\x00\x00\x00\x00\x00\x12\x02\x00\x0aread write";

const REFRESH_END: &[u8] = b"\x00\x00\x00\x00\x00\x01\x55\x72\x00\x0aread write";

fn issued(
    alloc: Global,
    at: Place,
    word: u64,
    (client, consent): (Place, Place),
    family_end: u64,
) -> Option<Vec<u8>> {
    let digest = digest((at, Kind::Code, word))?;
    let parts: [&[u8]; 8] = [
        &spelled(at),
        b"\x05",
        &spelled(client),
        &spelled(consent),
        &digest,
        CODE_TIMES,
        &family_end.to_be_bytes(),
        CODE_END,
    ];
    joined(alloc, &parts)
}

// Returns a fact of the kind of this number that uses the token minted at a dot, with the bytes
// after that dot, for new tokens.
fn minted(
    alloc: Global,
    at: Place,
    number: &[u8],
    (used, generation): (Place, &[u8]),
    words: (u64, u64),
) -> Option<Vec<u8>> {
    let access = digest((at, Kind::Access, words.0))?;
    let refresh = digest((at, Kind::Refresh, words.1))?;
    let parts: [&[u8]; 9] = [
        &spelled(at),
        number,
        &spelled(used),
        generation,
        START,
        &access,
        ACCESS_END,
        &refresh,
        REFRESH_END,
    ];
    joined(alloc, &parts)
}

fn revoked(alloc: Global, at: Place, token: Token, client: Place) -> Option<Vec<u8>> {
    let digest = digest(token)?;
    let (at, dot, client) = (spelled(at), spelled(token.0), spelled(client));
    joined(
        alloc,
        &[&at, b"\x08", &dot, &[token.1.number()], &digest, &client],
    )
}

// Returns a fact that an access token was minted for the refresh token of a dot.
fn refreshed(alloc: Global, at: Place, parent: Place, word: u64) -> Option<Vec<u8>> {
    let access = digest((at, Kind::Access, word))?;
    let parts: [&[u8]; 6] = [
        &spelled(at),
        b"\x0c",
        &spelled(parent),
        START,
        &access,
        ACCESS_END,
    ];
    joined(alloc, &parts)
}

// Returns a fact whose kind is followed by a dot and then by these bytes.
fn naming(alloc: Global, at: Place, number: &[u8], named: Place, behind: &[u8]) -> Option<Vec<u8>> {
    joined(alloc, &[&spelled(at), number, &spelled(named), behind])
}

fn given(alloc: Global, at: Place, client: Place, scope: &[u8]) -> Option<Vec<u8>> {
    let (at, client) = (spelled(at), spelled(client));
    joined(alloc, &[&at, b"\x03", &client, ANN, scope])
}

fn signed_out(alloc: Global, at: Place, subject: &[u8], moment: u64) -> Option<Vec<u8>> {
    let (at, moment) = (spelled(at), moment.to_be_bytes());
    joined(alloc, &[&at, b"\x0a", subject, &moment])
}

// Returns a fact that a secret of the client was set at the turn.
fn secret_set(
    alloc: Global,
    at: Place,
    client: Place,
    turn: u64,
    digest: &[u8],
) -> Option<Vec<u8>> {
    let (at, client, turn) = (spelled(at), spelled(client), turn.to_be_bytes());
    joined(alloc, &[&at, b"\x0f", &client, &turn, digest, START])
}

// Returns the bytes of a fact.
fn bytes_of(alloc: Global, told: &Told) -> Option<Vec<u8>> {
    let (place, says) = *told;
    match says {
        Says::ClientAdded => joined(alloc, &[&spelled(place), ADDED]),
        Says::ClientLimited => joined(alloc, &[&spelled(place), LIMITED]),
        Says::ClientRetired(client) => naming(alloc, place, b"\x02", client, b""),
        Says::ConsentGiven(client, scope) => given(alloc, place, client, scope),
        Says::ConsentWithdrawn(consent) => naming(alloc, place, b"\x04", consent, b""),
        Says::CodeIssued(word, client, consent) => {
            issued(alloc, place, word, (client, consent), FAMILY_END)
        }
        Says::CodeUntil(word, client, consent, end) => {
            issued(alloc, place, word, (client, consent), end)
        }
        Says::CodeRedeemed(code, words) => minted(alloc, place, b"\x06", (code, b""), words),
        Says::RefreshRotated(parent, generation, words) => {
            let generation = generation.to_be_bytes();
            minted(alloc, place, b"\x07", (parent, &generation), words)
        }
        Says::TokenRevoked(token, client) => revoked(alloc, place, token, client),
        Says::ReuseSeen(token, kind) => naming(alloc, place, b"\x09", token, &[kind.number()]),
        Says::SubjectOut(subject, moment) => signed_out(alloc, place, subject, moment),
        Says::AccessRefreshed(parent, word) => refreshed(alloc, place, parent, word),
        Says::SecretSet(client, turn, number) => {
            secret_set(alloc, place, client, turn, &secret_digest(number))
        }
    }
}

// The kinds of facts that operators make, and the number of each in which one is named.
const NAMED: &[(u8, u8)] = &[
    (1, 16),
    (13, 17),
    (2, 18),
    (3, 19),
    (4, 20),
    (8, 21),
    (10, 22),
    (15, 23),
];

// The operator root, at 1,010.
const BY: &[u8] = b"\x00\x04root\x00\x00\x00\x00\x00\x00\x03\xf2";

// Returns the number of a kind in which an operator is named, if operators make such facts.
fn named_number(number: u8) -> Option<u8> {
    for (bare, named) in NAMED {
        if *bare == number {
            return Some(*named);
        }
    }
    None
}

// Returns the bytes of a fact with the operator root, if operators make such facts.
fn named(alloc: Global, bytes: &[u8]) -> Option<Vec<u8>> {
    let (dot, rest) = bytes.split_first_chunk::<10>()?;
    let (number, fields) = rest.split_first()?;
    match named_number(*number) {
        Some(named) => joined(alloc, &[dot, &[named], fields, BY]),
        None => joined(alloc, &[bytes]),
    }
}

/// Reads the fact of its bytes; `None` if memory runs out. At an even serial a fact that operators
/// make names one.
pub(super) fn fact(alloc: Global, told: &Told) -> Option<Fact> {
    let bytes = bytes_of(alloc, told)?;
    let read = if told.0.1 % 2 == 0 {
        match &named(alloc, bytes.as_slice()) {
            Some(bytes) => Fact::read(alloc, bytes.as_slice()).ok(),
            None => None,
        }
    } else {
        Fact::read(alloc, bytes.as_slice()).ok()
    };
    drop(bytes);
    read
}
