//! Moving the front before a slot is put at a dot.

ghost use Rattle.std.specs.Prelude.{◌≡◌, ℕ, ◌<◌, ◌≤◌, ◌+◌, OnOk, OnErr, IsSome, None};
ghost use Rattle.std.specs.FinMap as sets;
ghost use Rattle.tk_handle.specs.Ranges.{max_serial};
ghost use Rattle.tk_store.specs.Front.{IsFront, dot_at};
ghost use Rattle.tk_store.specs.Slots.{Slot};

use crate::table::Table;
use std::alloc::AllocError;
use tk_handle::{Dot, Serial};
use tk_vector::VersionVector;

// Returns the end of the run of serials, without a gap, that are known behind the dot's.
fn run_end(table: &Table, dot: Dot) -> u64
    ensures from { dot.serial ≤ result }
    ensures high { result ≤ max_serial }
    ensures held { (k : ℕ) → dot.serial < k → k ≤ result
        → IsSome (sets.get table.now (dot_at dot.region k)) }
    ensures next { sets.get table.now (dot_at dot.region (result + 1)) ≡ None }
{
    table.known();
    for serial in dot.serial()..Serial::MAX {
        match Dot::new(dot.region(), serial + 1) {
            Some(next) => {
                if !table.knows(next) {
                    return serial;
                }
            }
            None => unreachable!("the next serial is in range"),
        }
    }
    Serial::MAX
}

// Makes the front of the slots the front of these with one more, at a dot that is unknown.
pub(crate) fn advance(table: &Table, front: &mut VersionVector, dot: Dot) -> Result<(), AllocError>
    requires free { sets.get table.now dot ≡ None }
    requires front { IsFront table.now front.old }
    ensures ok { OnOk result
        ((slot : Slot) → IsFront (sets.insert table.now dot slot) front.new) }
    ensures err { OnErr result (front.new ≡ front.old) }
{
    if dot.serial() - 1 != front.get(dot.region()) {
        return Ok(());
    }
    let end = run_end(table, dot);
    front.raise(dot.region(), end)
}
