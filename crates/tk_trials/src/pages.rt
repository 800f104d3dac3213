//! Pages in which marks that follow one another are one piece.

use std::alloc::{AllocError, Global};
use tk_bundle::{Bundle, Page, make, make_with_runs};
use tk_format::Writer;
use tk_handle::{Dot, Moment, RegionNumber};
use tk_store::FactStore;
use tk_vector::VersionVector;

// The serials of region 1 that the store skipped.
const SKIPPED: &[u64] = &[1, 2, 3, 4, 5, 8];

const HORIZON: u64 = 1_100;

fn dot(serial: u64) -> Option<Dot> {
    Dot::new(RegionNumber::new(1)?, serial)
}

// Skips the dots, and raises the horizon. Returns whether there was memory for that.
fn skip_all(store: &mut FactStore) -> bool {
    for serial in SKIPPED {
        match dot(*serial) {
            Some(at) if store.skip(at).is_ok() => {}
            _ => return false,
        }
    }
    match Moment::new(HORIZON) {
        Some(moment) => {
            store.raise_horizon(moment);
            true
        }
        None => false,
    }
}

fn put_dot(writer: &mut Writer, serial: u64) -> Result<(), AllocError> {
    writer.put_u16(1)?;
    writer.put_u64(serial)
}

fn put_mark(writer: &mut Writer, serial: u64) -> Result<(), AllocError> {
    writer.put_u16(10)?;
    put_dot(writer, serial)
}

// A run's 19 bytes after their length: its first dot, the number 14, its last serial.
fn put_run(writer: &mut Writer, first: u64, last: u64) -> Result<(), AllocError> {
    writer.put_u16(19)?;
    put_dot(writer, first)?;
    writer.put_u8(14)?;
    writer.put_u64(last)
}

// The run from 1:1 to 1:5, or to 1:5 from behind the cursor, and the mark of 1:8.
fn put_pieces(writer: &mut Writer, first: u64) -> Result<(), AllocError> {
    writer.put_bytes(b"OTB6")?;
    writer.put_u64(HORIZON)?;
    writer.put_u16(2)?;
    put_run(writer, first, 5)?;
    put_mark(writer, 8)
}

// The marks of 1:5 and 1:8, which no run is among.
fn put_marks(writer: &mut Writer) -> Result<(), AllocError> {
    writer.put_bytes(b"OTB3")?;
    writer.put_u64(HORIZON)?;
    writer.put_u16(2)?;
    put_mark(writer, 5)?;
    put_mark(writer, 8)
}

// Returns whether the page has these bytes and this number of items, which are read again, and ends
// with 1:8.
fn is_page(alloc: Global, page: &Page, writer: Writer, count: u16) -> bool {
    let bytes = writer.into_bytes();
    let has_items = match &Bundle::read(alloc, page.bytes.as_slice()) {
        Ok(bundle) => bundle.items().len() == usize::from(count),
        Err(_) => false,
    };
    has_items
        && page.bytes.as_slice() == bytes.as_slice()
        && page.count == count
        && page.last == dot(8)
        && !page.more
}

// Returns whether the page behind the dot, or the first, has the run from a serial to 1:5.
fn has_run(alloc: Global, store: &FactStore, after: Option<Dot>, first: u64, count: u16) -> bool {
    let mut writer = Writer::new(alloc);
    if put_pieces(&mut writer, first).is_err() {
        return false;
    }
    match &make_with_runs(alloc, store, &VersionVector::new(alloc), after) {
        Ok(page) => is_page(alloc, page, writer, count),
        Err(_) => false,
    }
}

// Returns whether both pages behind 1:4 are the same, since no mark follows another there.
fn has_marks(alloc: Global, store: &FactStore) -> bool {
    let mut writer = Writer::new(alloc);
    if put_marks(&mut writer).is_err() {
        return false;
    }
    let vector = VersionVector::new(alloc);
    match (
        &make_with_runs(alloc, store, &vector, dot(4)),
        &make(alloc, store, &vector, dot(4)),
    ) {
        (Ok(page), Ok(plain)) => {
            page.bytes.as_slice() == plain.bytes.as_slice() && is_page(alloc, page, writer, 2)
        }
        _ => false,
    }
}

#[test]
fn marks_that_follow_one_another_are_one_piece(rt: HostRuntime) {
    let mut store = FactStore::new(rt.alloc());
    assert!(rt; skip_all(&mut store));
    assert!(rt; has_run(rt.alloc(), &store, None, 1, 6));
    assert!(rt; has_run(rt.alloc(), &store, dot(2), 3, 4));
    assert!(rt; has_marks(rt.alloc(), &store));
}
