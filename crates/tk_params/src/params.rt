//! Names and values of a form or a query (RFC 6749, 3.1, 3.2 and appendix B).

use crate::place::Place;
use std::marker::Model;

/// The parameters of a form or a query, in the order in which they were sent.
///
/// Names and values are texts. A name without a value counts as omitted (RFC 6749, 3.1 and 3.2).
/// Contracts see the list of their bytes.
#[derive(Drop)]
pub struct Params {
    // The bytes of the names and values, one behind the other.
    text: Vec<u8>,
    places: Vec<Place>,
}

impl Model for Params {
    ghost use Rattle.std.specs.Prelude.{ℕ, List, All};
    ghost use Rattle.tk_params.specs.Places.{IsPlace, pairs_at};

    ghost Value = { List (List ℕ × List ℕ) };

    ghost view = { λ p. pairs_at p.text.items p.places.items };

    ghost invariant = { λ p. All (IsPlace p.text.items) p.places.items };
}

/// The value of a name, if the name occurs once; or how often the name occurs.
#[derive(Clone, Copy)]
pub enum One<'a> {
    /// The name does not occur.
    Absent,
    /// The name occurs once, with this value, which is not empty.
    Value(&'a str),
    /// The name occurs twice or more.
    Twice,
}

ghost use Rattle.std.specs.Prelude.{◌≡◌, ◌∷◌, ◌++◌, [], All, IfOk, OnOk, map};
ghost use Rattle.std.specs.List.{list_any};
ghost use Rattle.std.specs.Option.{option_copied};
ghost use Rattle.tk_params.specs.One.{IsOne};
ghost use Rattle.tk_params.specs.Params.{params_of, values_of, value_of, is_twice, has_twice};
ghost use Rattle.tk_params.specs.Places.{IsPlace, pairs_at};

use form_urlencoded::parse;
use std::alloc::{AllocError, Global};

impl Params {
    /// Reads the parameters of a form or a query from any bytes.
    ///
    /// Decoded bytes that are not UTF-8 become U+FFFD. Fails if memory runs out.
    pub fn read(alloc: Global, input: &[u8]) -> Result<Params, AllocError>
        ensures { IfOk result (λ params. params ≡ params_of input.now) }
    {
        read_pairs(alloc, input)
    }

    // Returns no parameters, with room for the bytes of some.
    fn with_room(alloc: Global, room: usize) -> Result<Params, AllocError>
        ensures { IfOk result (λ params. params ≡ []) }
    {
        Ok(Params {
            text: Vec::with_capacity(alloc, room)?,
            places: Vec::new(alloc),
        })
    }

    // Adds a pair behind the others. Fails if memory runs out.
    fn add(&mut self, name: &str, value: &str) -> Result<(), AllocError>
        ensures { OnOk result (self.new ≡ self.old ++ (name.now, value.now) ∷ []) }
    {
        let start = self.text.len();
        self.text.extend_from_slice(name.as_bytes())?;
        let middle = self.text.len();
        self.text.extend_from_slice(value.as_bytes())?;
        let end = self.text.len();
        self.places.push(Place { start, middle, end })?;
        Ok(())
    }

    /// Returns the value of a name, given as it is after decoding.
    pub fn one(&self, name: &str) -> One<'_>
        ensures { IsOne result (values_of name.now self.now) }
    {
        find_one(&self.text, &self.places, name)
    }

    /// Returns the value of a name that occurs once. Returns `None` if the name does not occur, or
    /// occurs twice or more.
    #[tactic(auto, using(crate::proofs::ParamLaws::only_of_several))]
    pub fn value(&self, name: &str) -> Option<&str>
        ensures { option_copied result ≡ value_of name.now self.now }
    {
        match self.one(name) {
            One::Value(value) => Some(value),
            One::Absent => None,
            One::Twice => None,
        }
    }

    // Returns whether a name occurs twice or more, which no request may have (RFC 6749, 3.1 and
    // 3.2).
    pub(crate) fn is_twice(&self, name: &str) -> bool
        ensures { result ≡ is_twice name.now self.now }
    {
        match self.one(name) {
            One::Twice => true,
            One::Value(_) => false,
            One::Absent => false,
        }
    }

    /// Returns whether at least one of the names occurs twice or more.
    pub fn has_twice(&self, names: &[&str]) -> bool
        ensures { result ≡ has_twice (map (λ x. x.now) names.now) self.now }
    {
        self.any_twice(names)
    }

    fn any_twice(&self, names: &[&str]) -> bool
        ensures { result ≡ list_any (λ name. is_twice name.now self.now) names.now }
    {
        names.iter().any(|name| self.is_twice(name))
    }
}

// Decodes the pairs that have a value, in order.
fn read_pairs(alloc: Global, input: &[u8]) -> Result<Params, AllocError>
    ensures { IfOk result (λ params. params ≡ params_of input.now) }
{
    let mut params = Params::with_room(alloc, input.len())?;
    for pair in parse(alloc, input) {
        let (name, value) = pair?;
        if !value.as_str().is_empty() {
            params.add(name.as_str(), value.as_str())?;
        }
    }
    Ok(params)
}

// Returns the value of a name, if it occurs once.
fn find_one<'a>(text: &'a [u8], places: &[Place], name: &str) -> One<'a>
    requires { All (IsPlace text.now) places.now }
    ensures { IsOne result (values_of name.now (pairs_at text.now places.now)) }
{
    let mut found = One::Absent;
    for place in places {
        if place.has_name(text, name) {
            found = match found {
                One::Absent => One::Value(place.value(text)),
                _ => One::Twice,
            };
        }
    }
    found
}
