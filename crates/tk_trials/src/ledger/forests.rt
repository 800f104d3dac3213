//! Forests of tk_family: the tops of their dots, and how many look-ups a top takes.

use super::facts::{Place, dot};
use std::alloc::Global;
use std::process::Abort;
use tk_family::{Forest, Link, Steps, Top};
use tk_handle::{Dot, Kind, TokenId};

// The kind of a link. A rotation has a generation.
#[derive(Clone, Copy)]
enum Does {
    Code,
    Redeems,
    Rotates(u16),
}

// Returns a link that names the dot, if it names one.
fn link(does: Does, names: Dot) -> Link {
    match does {
        Does::Code => Link::Code,
        Does::Redeems => Link::Redeems(names),
        Does::Rotates(generation) => Link::Rotates {
            parent: names,
            generation,
        },
    }
}

// A link: its dot, its kind, and the dot that it names; a code names its own dot.
type Row = (Place, Does, Place);

// The top of a dot, with the dot of its code.
#[derive(Clone, Copy)]
enum Stands {
    Absent,
    Broken,
    Lives(Place),
    Dead(Place),
}

// A step of a test: a change of a forest, or a check of it.
#[derive(Clone, Copy)]
enum Step {
    // Puts a link at a free dot, which raises these dots.
    Put(Row, &'static [Place]),
    // Puts 10,000 rotations at 1:1 and on, each of the one before, the first of the redemption at
    // this dot.
    Rotate(Place),
    // Checks that all of these dots have this top.
    Top(&'static [Place], Stands),
    // Checks that this dot has this top, and whether its refresh token is used.
    Look(Place, Stands, bool),
}

fn top(stands: Stands) -> Option<Top> {
    match stands {
        Stands::Absent => Some(Top::Absent),
        Stands::Broken => Some(Top::Broken),
        Stands::Lives(code) => Some(Top::Code(dot(code)?)),
        Stands::Dead(code) => Some(Top::Dead(dot(code)?)),
    }
}

fn is_at(forest: &Forest, at: Place, want: Stands) -> bool {
    match (dot(at), top(want)) {
        (Some(at), Some(want)) => forest.top(at, &mut Steps::new()) == want,
        _ => false,
    }
}

// Returns the top of a dot, whether its refresh token is used, and three counts of look-ups: after
// the top, after the use, and after one more tick.
fn looked_up(forest: &Forest, at: Place) -> Option<(Top, bool, [u64; 3])> {
    let (dot, kind) = (dot(at)?, Kind::Refresh);
    let mut steps = Steps::new();
    let top = forest.top(dot, &mut steps);
    let first = steps.count();
    let is_used = forest.used(TokenId { dot, kind }, &mut steps);
    let both = steps.count();
    steps.tick();
    Some((top, is_used, [first, both, steps.count()]))
}

// Returns whether a dot has this top and this use. The top of a dot with a link takes two look-ups,
// that of a dot without a link takes one.
fn is_seen(forest: &Forest, at: Place, want: Stands, is_used: bool) -> bool {
    let counts = match want {
        Stands::Absent => [1, 2, 3],
        _ => [2, 3, 4],
    };
    match (looked_up(forest, at), top(want)) {
        (Some(told), Some(want)) => told == (want, is_used, counts),
        _ => false,
    }
}

fn are_at(forest: &Forest, places: &[Place], want: Stands) -> bool {
    for at in places {
        if !is_at(forest, *at, want) {
            return false;
        }
    }
    true
}

// Returns the dots that a put raises. A put that runs out of memory is repeated, and does then what
// it would have done.
fn put(forest: &mut Forest, row: Row) -> Option<Vec<Dot>> {
    let (at, does, names) = row;
    let (at, link) = (dot(at)?, link(does, dot(names)?));
    match forest.top(at, &mut Steps::new()) {
        Top::Absent => match forest.put(at, link) {
            Ok(raised) => Some(raised),
            Err(_) => forest.put(at, link).ok(),
        },
        _ => None,
    }
}

fn are_dots(dots: &[Dot], places: &[Place]) -> bool {
    for (at, place) in dots.iter().zip(places.iter()) {
        if dot(*place) != Some(*at) {
            return false;
        }
    }
    dots.len() == places.len()
}

// Returns whether the dots at these places are raised, in this order.
fn raises(forest: &mut Forest, row: Row, places: &[Place]) -> bool {
    match &put(forest, row) {
        Some(dots) => are_dots(dots.as_slice(), places),
        None => false,
    }
}

// Returns how many dots a put raises.
fn raised(forest: &mut Forest, row: Row) -> Option<usize> {
    match &put(forest, row) {
        Some(dots) => Some(dots.len()),
        None => None,
    }
}

// Marks a token. A mark that runs out of memory is repeated.
fn mark(forest: &mut Forest, token: &TokenId) -> bool {
    forest.mark(*token).is_ok() || forest.mark(*token).is_ok()
}

fn is_marked(forest: &mut Forest, at: Place, kind: Kind) -> bool {
    match dot(at) {
        Some(dot) => mark(forest, &TokenId { dot, kind }),
        None => false,
    }
}

fn are_rotated(forest: &mut Forest, first: Place) -> bool {
    let mut parent = first;
    for generation in 1..=10_000_u16 {
        let at = (1, u64::from(generation));
        if raised(forest, (at, Does::Rotates(generation), parent)).is_none() {
            return false;
        }
        parent = at;
    }
    true
}

fn is_done(forest: &mut Forest, step: Step) -> bool {
    match step {
        Step::Put(row, places) => raises(forest, row, places),
        Step::Rotate(first) => are_rotated(forest, first),
        Step::Top(places, want) => are_at(forest, places, want),
        Step::Look(at, want, is_used) => is_seen(forest, at, want, is_used),
    }
}

// Returns the index of the first step that goes differently.
fn first_otherwise(forest: &mut Forest, steps: &[Step]) -> Option<usize> {
    for (index, step) in steps.iter().enumerate() {
        if !is_done(forest, *step) {
            return Some(index);
        }
    }
    None
}

// Returns the index of the first step that goes differently, in a new forest.
fn otherwise(alloc: Global, steps: &[Step]) -> Option<usize> {
    let mut forest = Forest::new(alloc);
    first_otherwise(&mut forest, steps)
}

// Asserts that each step goes as expected.
fn goes(rt: &impl Abort, alloc: Global, steps: &[Step]) {
    let wrong = otherwise(alloc, steps);
    assert!(rt; wrong.is_none(), "step {wrong:?}");
}

// A code, its redemption, and two rotations of its refresh token.
const CODE: Place = (1, 3);

const FIRST: Place = (1, 4);

const LEFT: Place = (1, 5);

const RIGHT: Place = (2, 1);

const ISSUED: Row = (CODE, Does::Code, CODE);

const REDEEMED: Row = (FIRST, Does::Redeems, CODE);

const ROTATED: Row = (LEFT, Does::Rotates(1), FIRST);

const ROTATED_AGAIN: Row = (RIGHT, Does::Rotates(1), FIRST);

const FAMILY: &[Place] = &[CODE, FIRST, LEFT, RIGHT];

#[rattlefmt::skip]
const CODE_LAST: &[Step] = &[
    Step::Put(ROTATED, &[]),
    Step::Top(&[LEFT], Stands::Broken),
    Step::Put(ROTATED_AGAIN, &[]),
    Step::Top(&[RIGHT], Stands::Broken),
    Step::Put(REDEEMED, &[]),
    Step::Put(ISSUED, FAMILY),
    Step::Top(FAMILY, DEAD),
    Step::Look(FIRST, DEAD, true),
    Step::Look(LEFT, DEAD, false),
    Step::Look((9, 9), Stands::Absent, false),
];

#[test]
fn a_code_that_comes_last_raises_its_dead_family(rt: HostRuntime) {
    goes(&rt, rt.alloc(), CODE_LAST);
}

// Returns how many dots the family raises in the order of this number. Each remainder chooses one
// of the links left.
fn raised_in_order(forest: &mut Forest, order: usize) -> Option<usize> {
    let mut left = [ISSUED, REDEEMED, ROTATED, ROTATED_AGAIN];
    let (mut digits, mut sum) = (order, 0_usize);
    for last in (0..4_usize).rev() {
        let place = digits % (last + 1);
        digits /= last + 1;
        left.swap(place, last);
        sum = sum.saturating_add(raised(forest, left[last])?);
    }
    Some(sum)
}

fn dies_in_order(alloc: Global, order: usize) -> bool {
    let mut forest = Forest::new(alloc);
    raised_in_order(&mut forest, order) == Some(4) && are_at(&forest, FAMILY, DEAD)
}

// Each order of the four links raises four dots, and all of them are dead then.
#[test]
fn a_family_dies_in_every_order(rt: HostRuntime) {
    for order in 0..24 {
        assert!(rt; dies_in_order(rt.alloc(), order), "order {order}");
    }
}

const LATE: Place = (3, 1);

#[rattlefmt::skip]
const CHILD_LATE: &[Step] = &[
    Step::Put(ISSUED, &[CODE]),
    Step::Put(REDEEMED, &[FIRST]),
    Step::Put(ROTATED, &[LEFT]),
    Step::Put(ROTATED_AGAIN, &[RIGHT]),
    Step::Put((LATE, Does::Rotates(2), RIGHT), &[LATE]),
    Step::Top(&[LATE], DEAD),
];

#[test]
fn a_late_child_of_a_dead_family_is_dead(rt: HostRuntime) {
    goes(&rt, rt.alloc(), CHILD_LATE);
}

const LIVES: Stands = Stands::Lives(CODE);

const DEAD: Stands = Stands::Dead(CODE);

// Marks of the grants of a family, and of tokens that aren't its grants.
#[rattlefmt::skip]
const MARKS: &[(&str, Place, Kind, Stands)] = &[
    ("the code", CODE, Kind::Code, DEAD),
    ("the first refresh token", FIRST, Kind::Refresh, DEAD),
    ("the next", LEFT, Kind::Refresh, DEAD),
    ("a refresh token of the code", CODE, Kind::Refresh, LIVES),
    ("an access token", FIRST, Kind::Access, LIVES),
    ("a code of a rotation", LEFT, Kind::Code, LIVES),
    ("a token of no link", (9, 9), Kind::Refresh, LIVES),
];

const THREE: &[Place] = &[CODE, FIRST, LEFT];

const PUT_THREE: &[Step] = &[
    Step::Put(ISSUED, &[CODE]),
    Step::Put(REDEEMED, &[FIRST]),
    Step::Put(ROTATED, &[LEFT]),
];

// Whether a token is marked before the three facts of a family are put, or after.
fn are_put_and_marked(forest: &mut Forest, at: Place, kind: Kind, before: bool) -> bool {
    if before {
        is_marked(forest, at, kind) && first_otherwise(forest, PUT_THREE).is_none()
    } else {
        first_otherwise(forest, PUT_THREE).is_none() && is_marked(forest, at, kind)
    }
}

// Returns whether all three dots have this top then.
fn is_when_marked(alloc: Global, at: Place, kind: Kind, want: Stands, before: bool) -> bool {
    let mut forest = Forest::new(alloc);
    are_put_and_marked(&mut forest, at, kind, before) && are_at(&forest, THREE, want)
}

// Returns the first mark with which some dot differs, and whether the mark comes first.
fn marked_otherwise(alloc: Global) -> Option<(&'static str, bool)> {
    for &(name, at, kind, want) in MARKS {
        for before in [true, false] {
            if !is_when_marked(alloc, at, kind, want, before) {
                return Some((name, before));
            }
        }
    }
    None
}

#[test]
fn a_mark_may_come_before_its_token(rt: HostRuntime) {
    let wrong = marked_otherwise(rt.alloc());
    assert!(rt; wrong.is_none(), "{wrong:?}");
}

// Rotations that name each other, a redemption of a redemption, and a generation that is left out.
#[rattlefmt::skip]
const STRAYS: &[Step] = &[
    Step::Put(((1, 1), Does::Code, (1, 1)), &[(1, 1)]),
    Step::Put(((1, 2), Does::Redeems, (1, 1)), &[(1, 2)]),
    Step::Put(((1, 3), Does::Redeems, (1, 2)), &[]),
    Step::Put(((1, 4), Does::Rotates(2), (1, 2)), &[]),
    Step::Put(((1, 5), Does::Rotates(1), (1, 1)), &[]),
    Step::Put(((1, 6), Does::Rotates(1), (1, 7)), &[]),
    Step::Put(((1, 7), Does::Rotates(1), (1, 6)), &[]),
    Step::Put(((1, 8), Does::Rotates(0), (1, 8)), &[]),
    Step::Top(&[(1, 1), (1, 2)], Stands::Lives((1, 1))),
    Step::Top(&[(1, 3), (1, 4), (1, 5), (1, 6), (1, 7), (1, 8)], Stands::Broken),
];

#[test]
fn what_leads_to_no_code_is_broken(rt: HostRuntime) {
    goes(&rt, rt.alloc(), STRAYS);
}

const LONG_LIVES: Stands = Stands::Lives((2, 1));

const LONG_DEAD: Stands = Stands::Dead((2, 1));

// A family of 10,001 members, which a second use of a token in its middle ends.
#[rattlefmt::skip]
const LONG: &[Step] = &[
    Step::Put(((2, 1), Does::Code, (2, 1)), &[(2, 1)]),
    Step::Put(((2, 2), Does::Redeems, (2, 1)), &[(2, 2)]),
    Step::Rotate((2, 2)),
    Step::Look((1, 1), LONG_LIVES, true),
    Step::Look((1, 5_000), LONG_LIVES, true),
    Step::Look((1, 10_000), LONG_LIVES, false),
    Step::Put(((3, 1), Does::Rotates(5_001), (1, 5_000)), &[(3, 1)]),
    Step::Look((1, 1), LONG_DEAD, true),
    Step::Look((1, 5_000), LONG_DEAD, true),
    Step::Look((1, 10_000), LONG_DEAD, false),
    Step::Look((9, 9), Stands::Absent, false),
];

#[test]
fn look_ups_are_the_same_at_every_generation(rt: HostRuntime) {
    goes(&rt, rt.alloc(), LONG);
}
