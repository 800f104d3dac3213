//! The option `--ahead`: whether pushed bundles whose horizon is later than the clock are refused.

ghost use Rattle.std.specs.Prelude.{◌≡◌, Some, codes};
ghost use Rattle.clap.specs.Words.{first_of, found_of, rows_of};
ghost use Rattle.tokend.specs.CommandLine.{is_misnamed, refusal_named};

use clap::ArgMatches;

// Returns whether there is an `--ahead` whose value is neither of the two.
pub(crate) fn is_ahead_misnamed(matches: &ArgMatches<'_>) -> bool
    ensures { result ≡ is_misnamed (first_of (codes "ahead") (rows_of (found_of matches.now))) }
{
    match matches.get_str("ahead") {
        Some(text) => refusal_named(text).is_none(),
        None => false,
    }
}

// Reads whether bundles that are ahead are refused, if `--ahead` has one of the two values.
pub(crate) fn read_refusal(matches: &ArgMatches<'_>) -> Option<bool>
    ensures { result ≡ refusal_named (first_of (codes "ahead") (rows_of (found_of matches.now))) }
{
    match matches.get_str("ahead") {
        Some(text) => refusal_named(text),
        None => None,
    }
}

// Returns whether a value of `--ahead` refuses bundles that are ahead, if it is one of the two.
fn refusal_named(text: &str) -> Option<bool>
    ensures { result ≡ refusal_named (Some text.now) }
{
    if text == "refused" {
        return Some(true);
    }
    if text == "taken" {
        return Some(false);
    }
    None
}
