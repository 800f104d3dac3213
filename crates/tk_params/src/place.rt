//! Where a pair of parameters is in a text: `Place`.

ghost use Rattle.std.specs.Prelude.{◌≡◌};
ghost use Rattle.std.specs.Str.{bytes_eq};
ghost use Rattle.tk_params.specs.Places.{IsPlace, pair_at};

// Where a pair is in the bytes of many: its name from `start` up to `middle`, and its value from
// there up to `end`.
#[derive(Clone, Copy)]
pub(crate) struct Place {
    pub(crate) start: usize,
    pub(crate) middle: usize,
    pub(crate) end: usize,
}

impl Place {
    // Returns whether the pair has the name.
    pub(crate) fn has_name(&self, text: &[u8], name: &str) -> bool
        requires { IsPlace text.now self.now }
        ensures { result ≡ bytes_eq (pair_at text.now self.now).0 name.now }
    {
        &text[self.start..self.middle] == name.as_bytes()
    }

    // Returns the value of the pair.
    pub(crate) fn value<'a>(&self, text: &'a [u8]) -> &'a str
        requires { IsPlace text.now self.now }
        ensures { result.now ≡ (pair_at text.now self.now).1 }
    {
        let Ok(value) = str::from_utf8(&text[self.middle..self.end]) else {
            unreachable!("a value is a text");
        };
        value
    }
}
