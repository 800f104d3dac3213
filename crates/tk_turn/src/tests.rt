//! Tests of turns over a service and a log in memory.

mod failing;
mod house;

use crate::requests::MAX_REQUESTS;
use crate::send;
use house::{Fails, new_house, sendable};
use std::test::Fail;

#[test]
fn one_flush_keeps_the_records_of_all(rt: HostRuntime) -> Result<(), Fail> {
    let mut house = new_house(rt.alloc())?;
    house.hear(rt.alloc(), 0, b"a.b.c")?;
    house.hear(rt.alloc(), 2, b"d.e.f.")?;
    assert!(rt; house.turn(&[2, 0]));
    assert!(rt; house.log.bytes.as_slice() == b"d.e.a.b.".as_slice());
    assert_eq!(rt; house.log.calls, 2);
    assert_eq!(rt; house.log.kept, 8);
    assert!(rt; sendable(&house.links, 0) == b"a.b.".as_slice());
    assert!(rt; sendable(&house.links, 1).is_empty());
    assert!(rt; sendable(&house.links, 2) == b"d.e.".as_slice());
    assert_eq!(rt; house.links.len(), 3);
    assert_eq!(rt; house.links[0].waiting(), 1);
    assert!(rt; house.links[2].is_last());
    Ok(())
}

#[test]
fn no_record_calls_no_log(rt: HostRuntime) -> Result<(), Fail> {
    let mut house = new_house(rt.alloc())?;
    house.hear(rt.alloc(), 1, b"q1q2q")?;
    assert!(rt; house.turn(&[0, 1]));
    assert_eq!(rt; house.log.calls, 0);
    assert!(rt; sendable(&house.links, 1) == b"q1q2".as_slice());
    Ok(())
}

#[test]
fn a_failed_log_loses_the_replies_of_its_turn_alone(rt: HostRuntime) -> Result<(), Fail> {
    let mut house = new_house(rt.alloc())?;
    house.hear(rt.alloc(), 0, b"a.")?;
    assert!(rt; house.turn(&[0]));
    house.log.fails = Fails::From(2);
    house.hear(rt.alloc(), 0, b"b.")?;
    assert!(rt; !house.turn(&[0, 1]));
    assert!(rt; house.service.is_sealed);
    assert!(rt; sendable(&house.links, 0) == b"a.".as_slice());
    assert_eq!(rt; house.links.len(), 3);
    assert!(rt; house.links[0].is_last());
    assert!(rt; !house.links[1].is_last());
    Ok(())
}

#[test]
fn a_turn_decides_so_many_requests_of_a_connection(rt: HostRuntime) -> Result<(), Fail> {
    let mut house = new_house(rt.alloc())?;
    for _ in 0..MAX_REQUESTS + 1 {
        house.hear(rt.alloc(), 0, b"a.")?;
    }
    assert!(rt; house.turn(&[0]));
    assert_eq!(rt; sendable(&house.links, 0).len(), 2 * MAX_REQUESTS);
    assert_eq!(rt; house.links.len(), 3);
    assert!(rt; house.links[0].is_cut());
    assert!(rt; house.turn(&[0]));
    assert_eq!(rt; sendable(&house.links, 0).len(), 2 * MAX_REQUESTS + 2);
    assert_eq!(rt; house.links.len(), 3);
    assert!(rt; !house.links[0].is_cut());
    Ok(())
}

#[test]
fn what_is_sent_is_sent_once(rt: HostRuntime) -> Result<(), Fail> {
    let mut house = new_house(rt.alloc())?;
    house.hear(rt.alloc(), 0, b"a.b.")?;
    assert!(rt; house.turn(&[0]));
    assert_eq!(rt; house.links.len(), 3);
    let mut piece = [0u8; 3];
    let mut output = piece.as_mut_slice();
    assert_eq!(rt; send(&mut house.links[0], &mut output)?, 3);
    assert!(rt; piece.as_slice() == b"a.b".as_slice());
    assert!(rt; sendable(&house.links, 0) == b".".as_slice());
    assert_eq!(rt; house.links.len(), 3);
    house.links[0].end();
    assert!(rt; house.links[0].is_over());
    assert!(rt; house.turn(&[0]));
    assert_eq!(rt; house.links.len(), 3);
    assert!(rt; house.links[0].is_last());
    Ok(())
}
