//! A row in little memory: its dots are numbers, side by side.

use crate::row::Uses;
use std::marker::Model;

// The kind of a link, or that there is no link.
#[derive(Clone, Copy)]
enum Form {
    // There is no link.
    Absent,
    Code,
    Redeems,
    Rotates,
}

/// A row, in 48 bytes; a `Row` has 104. An absent dot has the serial 0. Contracts see the row.
#[derive(Drop)]
pub(crate) struct PackedRow {
    named_serial: u64,
    code_serial: u64,
    first_serial: u64,
    bad: u64,
    named_region: u16,
    code_region: u16,
    first_region: u16,
    generation: u16,
    form: Form,
    marked_code: bool,
    marked_access: bool,
    marked_refresh: bool,
    redeemed: Uses,
    rotated: Uses,
}

impl Model for PackedRow {
    ghost use Rattle.tk_family.specs.Packed.{dot_from, link_from, IsDotFrom};
    ghost use Rattle.tk_family.specs.declared.row.Row.{Row};

    ghost Value = { Row };

    ghost view = { λ p. record {
      link = link_from p.form (dot_from p.named_region p.named_serial) p.generation;
      code = dot_from p.code_region p.code_serial;
      bad = p.bad;
      marked_code = p.marked_code;
      marked_access = p.marked_access;
      marked_refresh = p.marked_refresh;
      redeemed = p.redeemed;
      rotated = p.rotated;
      first = dot_from p.first_region p.first_serial;
    } };

    ghost invariant = { λ p. IsDotFrom p.named_region p.named_serial
        × IsDotFrom p.code_region p.code_serial
        × IsDotFrom p.first_region p.first_serial };
}

ghost use Rattle.std.specs.Prelude.{◌≡◌};
ghost use Rattle.tk_family.specs.Packed.{dot_from, link_from, named_in, form_of, generation_in};
ghost use Rattle.tk_family.specs.Packed.{IsDotFrom};

use crate::link::Link;
use crate::row::Row;
use tk_handle::{Dot, RegionNumber};

// Returns the region and the serial of a dot, or zeros if there is no dot.
fn numbers(dot: Option<Dot>) -> (u16, u64)
    ensures dot { dot_from result.0 result.1 ≡ dot }
    ensures fits { IsDotFrom result.0 result.1 }
{
    match dot {
        Some(dot) => (dot.region().number(), dot.serial()),
        None => (0, 0),
    }
}

// Returns the dot of a region and a serial, if the serial is not 0.
fn dot_of(region: u16, serial: u64) -> Option<Dot>
    requires { IsDotFrom region serial }
    ensures { result ≡ dot_from region serial }
{
    match RegionNumber::new(region) {
        Some(region) => Dot::new(region, serial),
        None => None,
    }
}

// Returns the kind of a link.
fn form_of(link: &Option<Link>) -> Form
    ensures { result ≡ form_of link.now }
{
    match link {
        None => Form::Absent,
        Some(Link::Code) => Form::Code,
        Some(Link::Redeems(_)) => Form::Redeems,
        Some(Link::Rotates { .. }) => Form::Rotates,
    }
}

// Returns the dot that a link names, if the link names one.
fn named_in(link: &Option<Link>) -> Option<Dot>
    ensures { result ≡ named_in link.now }
{
    match link {
        None => None,
        Some(Link::Code) => None,
        Some(Link::Redeems(code)) => Some(*code),
        Some(Link::Rotates { parent, .. }) => Some(*parent),
    }
}

// Returns the generation of a link, or 0 if it has none.
fn generation_in(link: &Option<Link>) -> u16
    ensures { result ≡ generation_in link.now }
{
    match link {
        None => 0,
        Some(Link::Code) => 0,
        Some(Link::Redeems(_)) => 0,
        Some(Link::Rotates { generation, .. }) => *generation,
    }
}

// Returns the link of its parts.
fn link_from(form: Form, named: Option<Dot>, generation: u16) -> Option<Link>
    ensures { result ≡ link_from form named generation }
{
    match (form, named) {
        (Form::Code, _) => Some(Link::Code),
        (Form::Redeems, Some(code)) => Some(Link::Redeems(code)),
        (Form::Rotates, Some(parent)) => Some(Link::Rotates { parent, generation }),
        _ => None,
    }
}

impl PackedRow {
    pub(crate) fn pack(row: &Row) -> PackedRow
        ensures { result ≡ row.now }
    {
        let (named_region, named_serial) = numbers(named_in(&row.link));
        let (code_region, code_serial) = numbers(row.code);
        let (first_region, first_serial) = numbers(row.first);
        PackedRow {
            named_serial,
            code_serial,
            first_serial,
            bad: row.bad,
            named_region,
            code_region,
            first_region,
            generation: generation_in(&row.link),
            form: form_of(&row.link),
            marked_code: row.marked_code,
            marked_access: row.marked_access,
            marked_refresh: row.marked_refresh,
            redeemed: row.redeemed,
            rotated: row.rotated,
        }
    }

    pub(crate) fn unpack(&self) -> Row
        ensures { result ≡ self.now }
    {
        Row {
            link: link_from(
                self.form,
                dot_of(self.named_region, self.named_serial),
                self.generation,
            ),
            code: dot_of(self.code_region, self.code_serial),
            bad: self.bad,
            marked_code: self.marked_code,
            marked_access: self.marked_access,
            marked_refresh: self.marked_refresh,
            redeemed: self.redeemed,
            rotated: self.rotated,
            first: dot_of(self.first_region, self.first_serial),
        }
    }
}
