//! Events as lines of text: `Event::read_line` reads one.

ghost use Rattle.std.specs.Prelude.{◌≡◌, ◌↔◌, ℕ, List, ◌∷◌, decimal, Some, IfOk, IfSome, IsErrOf};
ghost use Rattle.std.specs.Prelude.{IsSome, [], codes};
ghost use Rattle.tk_handle.specs.Ranges.{IsMoment, IsRegion};
ghost use Rattle.tk_world.specs.Line.{IsPrintable, texts, IsEventForm, IsNoEventForm, IsEventLine};
ghost use Rattle.tk_world.specs.Line.{IsNoEventLine, HasWords};
ghost use Rattle.tk_world.specs.RequestLine.{asked_of};

use crate::event::Event;
use crate::fields::{cursor, fields, moment, region};
use crate::request_line::asked;
use std::alloc::Global;
use tk_format::{ReadError, read_decimal};
use tk_vector::VersionVector;

impl Event {
    /// Reads the event of a line, given without its end. `words` are the random words of a request.
    ///
    /// A line has one of these forms:
    ///
    /// - `open R`
    /// - `req R NOW METHOD TARGET AUTH SUBJECT BODY`, where `-` leaves out each of the last three;
    ///   AUTH follows `Basic ` in the header
    /// - `client R NOW KIND SECRET SCOPE URIS`, where the secret `-` leaves it out
    /// - `retire R NOW ID`
    /// - `signout R NOW SUBJECT`
    /// - `look R NOW ID`
    /// - `pull R VECTOR AFTER`
    /// - `deliver B R`
    /// - `prune R H`
    /// - `prune_some R H AFTER COUNT`
    ///
    /// Fields are one or more bytes of `%x21-7E`, with one space between two fields. Their values:
    ///
    /// - R is the number of a region, NOW and H are moments, B is a bundle's number from 0.
    /// - VECTOR is `-`, or entries `R:S` of rising regions, joined by commas.
    /// - AFTER is `-`, or the dot `R:S` above which the page or the slice begins.
    /// - COUNT is a number of facts, from 0.
    /// - METHOD is capital letters.
    ///
    /// A `req` line makes the head of an HTTP/1.1 request, an empty line and the body. The four
    /// forms after `req` are short for a `req` line.
    ///
    /// # Errors
    ///
    /// `Malformed` if the line has none of these forms, or a number is out of its range. `Memory`
    /// if memory runs out.
    pub fn read_line(alloc: Global, line: &[u8], words: [u64; 6]) -> Result<Event, ReadError>
        ensures found { IfOk result (IsEventLine line.now) }
        ensures words { IfOk result (HasWords words) }
        ensures malformed { IsErrOf result ReadError.Malformed → IsNoEventLine line.now }
    {
        let fields = fields(alloc, printable(line).ok_or(ReadError::Malformed)?)?;
        if fields.iter().any(|field| field.is_empty()) {
            return Err(ReadError::Malformed);
        }
        event_of(alloc, &fields, words)
    }
}

// Reads the event of a line's fields.
fn event_of(alloc: Global, fields: &[&str], words: [u64; 6]) -> Result<Event, ReadError>
    ensures found { IfOk result (IsEventForm (texts fields.now)) }
    ensures words { IfOk result (HasWords words) }
    ensures malformed { IsErrOf result ReadError.Malformed → IsNoEventForm (texts fields.now) }
{
    match fields {
        ["open", at] => match region(at) {
            Some(region) => Ok(Event::Open(region)),
            None => Err(ReadError::Malformed),
        },
        ["pull", at, entries, after] => pull_event(alloc, at, entries, after),
        ["deliver", bundle, to] => {
            let Some(bundle) = read_decimal(bundle.as_bytes()) else {
                return Err(ReadError::Malformed);
            };
            match region(to) {
                Some(region) => Ok(Event::Deliver { bundle, region }),
                None => Err(ReadError::Malformed),
            }
        }
        ["prune", at, horizon] => {
            let Some(region) = region(at) else {
                return Err(ReadError::Malformed);
            };
            match moment(horizon) {
                Some(horizon) => Ok(Event::Prune { region, horizon }),
                None => Err(ReadError::Malformed),
            }
        }
        ["prune_some", at, horizon, after, count] => slice_event(at, horizon, after, count),
        [name, at, now, form @ ..] => request_event(alloc, name, at, now, form, words),
        _ => Err(ReadError::Malformed),
    }
}

// Reads the pull of a line: the fields behind its name.
fn pull_event(alloc: Global, at: &str, entries: &str, after: &str) -> Result<Event, ReadError>
    ensures found { IfOk result (IsEventForm
        (codes "pull" ∷ at.now ∷ entries.now ∷ after.now ∷ [])) }
    ensures words { (words : List ℕ) → IfOk result (HasWords words) }
    ensures malformed { IsErrOf result ReadError.Malformed → IsNoEventForm
        (codes "pull" ∷ at.now ∷ entries.now ∷ after.now ∷ []) }
{
    let Some(region) = region(at) else {
        return Err(ReadError::Malformed);
    };
    let Some(after) = cursor(after) else {
        return Err(ReadError::Malformed);
    };
    let vector = VersionVector::read_text(alloc, entries.as_bytes())?;
    Ok(Event::Pull {
        region,
        vector,
        after,
    })
}

// Reads the event of the fields of a slice of a prune.
fn slice_event(at: &str, horizon: &str, after: &str, count: &str) -> Result<Event, ReadError>
    ensures found { IfOk result (IsEventForm
        (codes "prune_some" ∷ at.now ∷ horizon.now ∷ after.now ∷ count.now ∷ [])) }
    ensures words { (words : List ℕ) → IfOk result (HasWords words) }
    ensures malformed { IsErrOf result ReadError.Malformed → IsNoEventForm
        (codes "prune_some" ∷ at.now ∷ horizon.now ∷ after.now ∷ count.now ∷ []) }
{
    let Some(region) = region(at) else {
        return Err(ReadError::Malformed);
    };
    let Some(horizon) = moment(horizon) else {
        return Err(ReadError::Malformed);
    };
    let Some(after) = cursor(after) else {
        return Err(ReadError::Malformed);
    };
    match read_decimal(count.as_bytes()) {
        Some(count) => Ok(Event::PruneSome {
            region,
            horizon,
            after,
            count,
        }),
        None => Err(ReadError::Malformed),
    }
}

// Reads the event of the fields of a request.
fn request_event(
    alloc: Global,
    name: &str,
    at: &str,
    now: &str,
    form: &[&str],
    words: [u64; 6],
) -> Result<Event, ReadError>
    ensures found { IfOk result (IsEventForm (name.now ∷ at.now ∷ now.now ∷ texts form.now)) }
    ensures words { IfOk result (HasWords words) }
    ensures malformed { IsErrOf result ReadError.Malformed → (number time : ℕ) (request : List ℕ)
        → at.now ≡ decimal number → IsRegion number
        → now.now ≡ decimal time → IsMoment time
        → ¬ (asked_of name.now (texts form.now) ≡ Some request) }
{
    let Some(region) = region(at) else {
        return Err(ReadError::Malformed);
    };
    let Some(now) = moment(now) else {
        return Err(ReadError::Malformed);
    };
    match asked(alloc, name, form)? {
        Some(bytes) => Ok(Event::Request {
            region,
            now,
            words,
            bytes,
        }),
        None => Err(ReadError::Malformed),
    }
}

// Returns the line as text if all its bytes are spaces and visible ASCII.
fn printable(line: &[u8]) -> Option<&str>
    ensures text { IfSome result (λ text. text.now ≡ line.now) }
    ensures printable { IsSome result ↔ IsPrintable line.now }
{
    if !line.iter().all(|b| matches!(b, b' '..=b'~')) {
        return None;
    }
    str::from_utf8(line).ok()
}
