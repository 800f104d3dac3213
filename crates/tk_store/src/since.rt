//! The dots that a vector does not cover, found without looking at those that it covers.

ghost use Rattle.std.specs.Prelude.{◌≡◌, [], IfOk, OnOk, take, map};
ghost use Rattle.tk_store.specs.Beyond.{beyond};
ghost use Rattle.tk_store.specs.FactSet.{dot_of};
ghost use Rattle.tk_store.specs.Seeking.{Seeks, GoesOn, noted};

use crate::table::Table;
use std::alloc::{AllocError, Global};
use tk_handle::Dot;
use tk_vector::VersionVector;

// A step of the search: the cursor from which the search goes on, and whether the dot there is one
// that the vector does not cover.
#[derive(Clone, Copy)]
pub(crate) struct Step {
    at: Dot,
    is_beyond: bool,
}

// Returns the step at a dot that is known: to the dot itself, or to the last dot of its region that
// the vector covers.
fn step_at(vector: &VersionVector, dot: Dot) -> Step
    ensures { GoesOn vector.now dot result.at result.is_beyond }
{
    let entry = vector.get(dot.region());
    if dot.serial() > entry {
        return Step {
            at: dot,
            is_beyond: true,
        };
    }
    match Dot::new(dot.region(), entry) {
        Some(last) => Step {
            at: last,
            is_beyond: false,
        },
        None => unreachable!("the entry is not below the dot's serial"),
    }
}

// Returns the next step above a cursor, if there is one.
fn next_step(table: &Table, vector: &VersionVector, after: Option<Dot>) -> Option<Step>
    ensures { Seeks table.now vector.now after result }
{
    match table.next_after(after) {
        Some(next) => Some(step_at(vector, next.0)),
        None => None,
    }
}

// Notes the dot of a step, if the vector does not cover it.
fn note(dots: &mut Vec<Dot>, at: Dot, is_beyond: bool) -> Result<(), AllocError>
    ensures ok { OnOk result (dots.new.items ≡ noted dots.old.items at is_beyond) }
{
    if is_beyond {
        dots.push(at)?;
    }
    Ok(())
}

// Gathers the first dots above a cursor that the vector does not cover.
fn gather(
    table: &Table,
    vector: &VersionVector,
    after: Option<Dot>,
    limit: usize,
    dots: &mut Vec<Dot>,
) -> Result<(), AllocError>
    requires { dots.old.items ≡ [] }
    ensures { OnOk result
        (dots.new.items ≡ take limit (map dot_of (beyond table.now vector.now after))) }
{
    let mut place = after;
    'pages: while dots.len() < limit {
        let Some(Step { at, is_beyond }) = next_step(table, vector, place) else {
            return Ok(());
        };
        note(dots, at, is_beyond)?;
        place = Some(at);
    }
    Ok(())
}

// Returns the first dots above a cursor that the vector does not cover, at most `limit`.
pub(crate) fn dots_beyond(
    alloc: Global,
    table: &Table,
    vector: &VersionVector,
    after: Option<Dot>,
    limit: usize,
) -> Result<Vec<Dot>, AllocError>
    ensures { IfOk result
        (λ dots. dots.items ≡ take limit (map dot_of (beyond table.now vector.now after))) }
{
    let mut dots = Vec::new(alloc);
    gather(table, vector, after, limit, &mut dots)?;
    Ok(dots)
}
