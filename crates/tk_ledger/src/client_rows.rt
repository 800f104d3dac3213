//! The table of clients.

// The row of a client: whether a fact adds it, and whether a fact retires it. The retirement may
// arrive first.
#[derive(Clone, Copy)]
pub(crate) struct ClientRow {
    pub(crate) added: bool,
    pub(crate) retired: bool,
}

ghost use Rattle.std.specs.Prelude.{◌≡◌, ◌||◌, ◌&&◌, not, OnOk, OnErr, Some, cond};
ghost use Rattle.tk_handle.specs.declared.dot.Dot.{Dot as the_dot};
ghost use Rattle.tk_ledger.specs.Index.{row_at, row_added, row_retired, is_at};

use std::alloc::AllocError;
use std::collections::BTreeMap;
use tk_handle::Dot;

// Returns whether the client's row is that of a client that was added.
fn is_added(clients: &BTreeMap<Dot, ClientRow>, client: Dot) -> bool
    ensures { result ≡ row_added (row_at clients.now client) }
{
    match clients.get(&client) {
        Some(row) => row.added,
        None => false,
    }
}

// Returns whether the client's row is that of a client that was retired.
fn is_retired(clients: &BTreeMap<Dot, ClientRow>, client: Dot) -> bool
    ensures { result ≡ row_retired (row_at clients.now client) }
{
    match clients.get(&client) {
        Some(row) => row.retired,
        None => false,
    }
}

// Returns whether the client was added and not retired, by one look-up.
pub(crate) fn is_live(clients: &BTreeMap<Dot, ClientRow>, client: Dot) -> bool
    ensures { result ≡ (row_added (row_at clients.now client)
        && not (row_retired (row_at clients.now client))) }
{
    match clients.get(&client) {
        Some(row) => row.added && !row.retired,
        None => false,
    }
}

// Replaces the client's row.
fn put_row(
    clients: &mut BTreeMap<Dot, ClientRow>,
    client: Dot,
    row: ClientRow,
) -> Result<(), AllocError>
    ensures ok { OnOk result ((q : the_dot)
        → row_at clients.new q ≡ cond (is_at client q) (Some row) (row_at clients.old q)) }
    ensures err { OnErr result ((q : the_dot) → row_at clients.new q ≡ row_at clients.old q) }
{
    clients.insert(client, row)?;
    Ok(())
}

// Notes that a client was added.
pub(crate) fn add_client(
    clients: &mut BTreeMap<Dot, ClientRow>,
    client: Dot,
) -> Result<(), AllocError>
    ensures added { OnOk result ((q : the_dot) → row_added (row_at clients.new q)
        ≡ (is_at client q || row_added (row_at clients.old q))) }
    ensures retired { OnOk result ((q : the_dot) → row_retired (row_at clients.new q)
        ≡ row_retired (row_at clients.old q)) }
    ensures err { OnErr result ((q : the_dot) → row_at clients.new q ≡ row_at clients.old q) }
{
    let retired = is_retired(clients, client);
    let row = ClientRow {
        added: true,
        retired,
    };
    put_row(clients, client, row)
}

// Notes that a client was retired.
pub(crate) fn retire_client(
    clients: &mut BTreeMap<Dot, ClientRow>,
    client: Dot,
) -> Result<(), AllocError>
    ensures retired { OnOk result ((q : the_dot) → row_retired (row_at clients.new q)
        ≡ (is_at client q || row_retired (row_at clients.old q))) }
    ensures added { OnOk result ((q : the_dot) → row_added (row_at clients.new q)
        ≡ row_added (row_at clients.old q)) }
    ensures err { OnErr result ((q : the_dot) → row_at clients.new q ≡ row_at clients.old q) }
{
    let added = is_added(clients, client);
    let row = ClientRow {
        added,
        retired: true,
    };
    put_row(clients, client, row)
}
