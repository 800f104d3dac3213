//! The page of clients that GET `/admin/clients` returns, as a text.

ghost use Rattle.std.specs.Prelude.{◌≡◌, ◌++◌, zero, IfOk, OnOk};
ghost use Rattle.json.specs.Tree.{items_tokens, json_tokens};
ghost use Rattle.serde_json.specs.Written.{compact_text, items_outline, outline};
ghost use Rattle.tk_store.specs.StoreFields.{held_facts};
ghost use Rattle.tk_store.specs.Walk.{above};
ghost use Rattle.tk_ledger.specs.ClientWalk.{clients_in};
ghost use Rattle.tk_message.specs.ClientPage as spec;
ghost use Rattle.tk_message.specs.Page.{max_listed, listed, cursor_of};

use crate::bodies::put_shown;
use crate::object::{begin, end, put_text};
use json::Writer;
use std::alloc::{AllocError, Global};
use tk_handle::{Dot, client_text};
use tk_ledger::{ClientView, Ledger};

// How many clients, consents or logins a page has at most.
pub(crate) const MAX_LISTED: usize = 128;

// How many bytes are reserved for a page. Most pages need fewer, a long one needs more.
const ROOM: usize = 4_096;

// Returns the page of the clients above a dot, or of the first clients.
pub(crate) fn clients_body(
    alloc: Global,
    ledger: &Ledger,
    after: Option<Dot>,
) -> Result<Vec<u8>, AllocError>
    ensures { IfOk result (λ body. body.items
        ≡ compact_text (spec.clients_body (held_facts ledger.now) after)) }
{
    let mut out = begin(alloc, ROOM)?;
    out.key("clients")?;
    out.begin_array()?;
    let next = put_clients(alloc, &mut out, ledger, after)?;
    if let Some(client) = next {
        let id = client_text(alloc, client)?;
        put_text(&mut out, "next", id.as_str())?;
    }
    end(out)
}

// Writes the clients of a page, and the end of their array. Returns the last of them, if others
// follow.
fn put_clients(
    alloc: Global,
    out: &mut Writer,
    ledger: &Ledger,
    after: Option<Dot>,
) -> Result<Option<Dot>, AllocError>
    ensures ok { OnOk result (out.new.tokens ≡ out.old.tokens ++ items_tokens (items_outline
        (listed spec.listed_body max_listed (above (clients_in (held_facts ledger.now)) after)))) }
    ensures next { IfOk result (λ next. next ≡ cursor_of max_listed after
        (above (clients_in (held_facts ledger.now)) after)) }
    ensures before { OnOk result (out.new.before ≡ out.old.before) }
{
    let mut at = after;
    for _ in 0..MAX_LISTED {
        let Some(next) = ledger.next_client(at) else {
            out.end_array()?;
            return Ok(None);
        };
        put_client(alloc, out, &next)?;
        at = Some(next.0);
    }
    out.end_array()?;
    Ok(cursor_at(ledger, at))
}

// Returns the client that a full page ends with, if others follow.
fn cursor_at(ledger: &Ledger, last: Option<Dot>) -> Option<Dot>
    ensures { result ≡ cursor_of zero last (above (clients_in (held_facts ledger.now)) last) }
{
    let cursor = last;
    match ledger.next_client(last) {
        Some(_) => cursor,
        None => None,
    }
}

// Writes a client of a page.
fn put_client(
    alloc: Global,
    out: &mut Writer,
    client: &(Dot, ClientView<'_>),
) -> Result<(), AllocError>
    ensures ok { OnOk result (out.new.tokens ≡ out.old.tokens
        ++ json_tokens (outline (spec.listed_body client.now))) }
    ensures before { OnOk result (out.new.before ≡ out.old.before) }
{
    let (client, view) = (client.0, &client.1);
    out.begin_object()?;
    put_shown(
        alloc,
        out,
        client,
        view.client_kind,
        view.lives,
        view.live,
        view.scope,
    )?;
    out.end_object()
}
