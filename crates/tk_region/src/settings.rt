//! The settings of a region: four lives and the serial cap, each in its range, and choices.

use std::marker::Model;

/// The lives of tokens and families, in seconds, the serial cap, up to which a region makes facts,
/// and what the region does if the profile leaves a choice (own).
#[derive(Clone, Copy)]
pub struct Settings {
    code: u64,
    access: u64,
    refresh: u64,
    family: u64,
    cap: u64,
    choices: Choices,
}

impl Model for Settings {
    ghost use Rattle.tk_region.specs.SettingsFields.{SettingsFields, IsSettings};

    ghost Value = { SettingsFields };

    ghost view = { λ s. record {
      code = s.code;
      access = s.access;
      refresh = s.refresh;
      family = s.family;
      cap = s.cap;
      choices = s.choices;
    } };

    ghost invariant = { λ s. IsSettings (record {
      code = s.code;
      access = s.access;
      refresh = s.refresh;
      family = s.family;
      cap = s.cap;
      choices = s.choices;
    }) };

    ghost inverse = { λ s. record {
      code = s.code;
      access = s.access;
      refresh = s.refresh;
      family = s.family;
      cap = s.cap;
      choices = s.choices;
    } };
}

ghost use Rattle.std.specs.Prelude.{◌≡◌, ◌↔◌, IsTrue};
ghost use Rattle.std.specs.Option.{SomeIff};
ghost use Rattle.tk_region.specs.SettingsFields.{IsSettings, IsUpTo, max_cap, lives_of};
ghost use Rattle.tk_region.specs.SettingsFields.{with_cap};

use tk_handle::Serial;
use tk_message::{Choices, Lives};

impl Settings {
    /// The greatest life of a code, in seconds: ten minutes.
    pub const MAX_CODE: u64 = 600;

    /// The greatest life of an access token, in seconds: a day.
    pub const MAX_ACCESS: u64 = 86_400;

    /// The greatest life of a refresh token, in seconds: a year.
    pub const MAX_REFRESH: u64 = 31_536_000;

    /// The greatest life of a family, in seconds: ten years.
    pub const MAX_FAMILY: u64 = 315_360_000;

    /// The greatest cap. The serial above it is left for the dot of the next fact.
    pub const MAX_CAP: u64 = Serial::MAX - 1;

    /// Returns the settings of these lives and this cap with the profile's choices, or `None` if
    /// one of the numbers is out of its range.
    ///
    /// Each number is at least 1. A code lives at most 600 seconds, an access token 86,400, a
    /// refresh token 31,536,000, a family 315,360,000. The cap is at most the greatest serial less
    /// one.
    pub fn new(lives: Lives, cap: u64) -> Option<Settings>
        ensures { SomeIff result (IsSettings (with_cap lives cap)) (with_cap lives cap) }
    {
        let in_range = is_up_to(Settings::MAX_CODE, lives.code)
            && is_up_to(Settings::MAX_ACCESS, lives.access)
            && is_up_to(Settings::MAX_REFRESH, lives.refresh)
            && is_up_to(Settings::MAX_FAMILY, lives.family)
            && is_up_to(Settings::MAX_CAP, cap);
        if !in_range {
            return None;
        }
        Some(Settings {
            code: lives.code,
            access: lives.access,
            refresh: lives.refresh,
            family: lives.family,
            cap,
            choices: Choices::profile(),
        })
    }

    /// Returns these settings with other choices.
    pub fn with_choices(self, choices: Choices) -> Settings
        ensures { result ≡ record self { choices = choices } }
    {
        Settings { choices, ..self }
    }

    // Returns how long tokens and families live.
    pub(crate) fn lives(&self) -> Lives
        ensures { result ≡ lives_of self.now }
    {
        Lives {
            code: self.code,
            access: self.access,
            refresh: self.refresh,
            family: self.family,
        }
    }

    // Returns what the region does if the profile leaves a choice.
    pub(crate) fn choices(&self) -> Choices
        ensures { result ≡ self.now.choices }
    {
        self.choices
    }

    /// Returns the cap: the greatest serial at which a region makes a fact.
    pub fn cap(&self) -> u64
        ensures value { result ≡ self.now.cap }
        ensures range { IsUpTo max_cap self.now.cap }
    {
        self.cap
    }
}

// Returns whether a number is at least 1 and at most the greatest.
fn is_up_to(greatest: u64, n: u64) -> bool
    ensures { IsTrue result ↔ IsUpTo greatest n }
{
    0 < n && n <= greatest
}
