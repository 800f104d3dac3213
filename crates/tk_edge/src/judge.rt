//! Judges a head: which service it requests, or which rule it breaks first (RFC 9110, 9.1 and 15.5;
//! RFC 9112, 6).
//!
//! `judge` returns a `Judged`.

ghost use Rattle.std.specs.Prelude.{◌≡◌, ◌≤◌, ℕ, false, List, length};
ghost use Rattle.tk_params.specs.Params.{Pairs};
ghost use Rattle.tk_edge.specs.HeadFields.{AreFields, IsField, has_repeats};
ghost use Rattle.tk_edge.specs.Judged as spec;

use crate::field::{Field, Fields, any_repeats};
use crate::media_type::is_form_type;
use crate::notice::Notice;
use crate::path::{Method, Path, Posted, Service, method_named, path_named, split_target};
use crate::pull::pages_by;
use crate::reach::Reach;
use crate::refusal::Refusal;
use tk_format::{Numeral, read_numeral};
use tk_message::Endpoint;

// What a head requests: nothing that is served, the query of a GET, the region's vector, what the
// server says of itself, or a service with a body of the given number of bytes.
#[derive(Clone, Copy)]
pub(crate) enum Judged {
    Refused(Refusal),
    Query(Endpoint),
    Vector,
    Notice(Notice),
    Body(Posted, u32),
}

// Judges a head by its method, target and fields. `reach` is which paths are served.
pub(crate) fn judge(reach: Reach, method: &[u8], target: &[u8], fields: &Fields<'_>) -> Judged
    ensures { (pairs : Pairs) → AreFields fields.now pairs
        → result ≡ spec.judged_of reach method.now target.now pairs }
{
    let (path, query) = split_target(target);
    let judged = at_path(path_named(reach, path), method_named(method), fields);
    by_query(query, judged)
}

// Judges a head by its query, which names the pages of a pull. The judgement of any other head
// stays.
fn by_query(query: &[u8], judged: Judged) -> Judged
    ensures { result ≡ spec.by_query query.now judged }
{
    match judged {
        Judged::Body(Posted::Pull(_), size) => Judged::Body(Posted::Pull(pages_by(query)), size),
        _ => judged,
    }
}

// Judges a head from the path on.
fn at_path(path: Option<Path>, method: Option<Method>, fields: &Fields<'_>) -> Judged
    ensures { (pairs : Pairs) → AreFields fields.now pairs
        → result ≡ spec.at_path path method pairs }
{
    match path {
        Some(path) => at_service(path, path.service(method), fields),
        None => Judged::Refused(Refusal::UnknownPath),
    }
}

// Judges a head on a known path, from the method on.
fn at_service(path: Path, service: Option<Service>, fields: &Fields<'_>) -> Judged
    ensures { (pairs : Pairs) → AreFields fields.now pairs
        → result ≡ spec.at_service path service pairs }
{
    let Some(service) = service else {
        return Judged::Refused(Refusal::WrongMethod(path));
    };
    if any_repeats(fields) {
        return Judged::Refused(Refusal::DuplicateField);
    }
    asked(service, fields)
}

// Judges a head for a known service, without repeated fields.
fn asked(service: Service, fields: &Fields<'_>) -> Judged
    ensures { (pairs : Pairs) → AreFields fields.now pairs → has_repeats pairs ≡ false
        → result ≡ spec.asked service pairs }
{
    match service {
        Service::Query(endpoint) => Judged::Query(endpoint),
        Service::Vector => Judged::Vector,
        Service::Notice(notice) => Judged::Notice(notice),
        Service::Body(posted) => with_body(posted, fields),
    }
}

// Judges a head whose service needs a body, by its coding, length and type.
fn with_body(posted: Posted, fields: &Fields<'_>) -> Judged
    ensures { (codings lengths kinds : List (List ℕ)) → IsField fields.now.coding codings
        → IsField fields.now.length lengths → length lengths ≤ 1 → IsField fields.now.kind kinds
        → length kinds ≤ 1
        → result ≡ spec.with_body posted codings lengths kinds }
{
    match (fields.coding, fields.length) {
        (Field::Absent, Field::Value(text)) => {
            sized(posted, read_numeral(text, limit_of(posted)), fields.kind)
        }
        _ => Judged::Refused(Refusal::LengthRequired),
    }
}

// Returns the limit of a body, in bytes.
fn limit_of(posted: Posted) -> u32
    ensures { result ≡ spec.limit_of posted }
{
    match posted {
        Posted::Form(_) => 16_384,
        Posted::Pull(_) | Posted::Push => 1_049_600,
    }
}

// Judges a head by its Content-Length, then by its type.
fn sized(posted: Posted, told: Numeral, kind: Field<'_>) -> Judged
    ensures { (kinds : List (List ℕ)) → IsField kind.entry kinds → length kinds ≤ 1
        → result ≡ spec.sized posted told kinds }
{
    match told {
        Numeral::Malformed => Judged::Refused(Refusal::MalformedLength),
        Numeral::Above => Judged::Refused(Refusal::TooLarge),
        Numeral::Within(n) => {
            if fits_type(posted, kind) {
                Judged::Body(posted, n)
            } else {
                Judged::Refused(Refusal::WrongType)
            }
        }
    }
}

// Returns whether the type fits: a form's type may be absent, an exchange may have any type.
fn fits_type(posted: Posted, kind: Field<'_>) -> bool
    ensures { (kinds : List (List ℕ)) → IsField kind.entry kinds → length kinds ≤ 1
        → result ≡ spec.fits_type posted kinds }
{
    match (posted, kind) {
        (Posted::Form(_), Field::Value(text)) => is_form_type(text),
        _ => true,
    }
}
