//! The option `--challenge`: what is required of the challenge of a code.

ghost use Rattle.std.specs.Prelude.{◌≡◌, Some, codes};
ghost use Rattle.std.specs.List.{list_all};
ghost use Rattle.clap.specs.Words.{first_of, found_of, rows_of};
ghost use Rattle.tokend.specs.Challenges as spec;
ghost use Rattle.tokend.specs.Kinds.{words_of};

use crate::kinds::lists;
use clap::ArgMatches;
use tk_message::ChallengeRules;

// Returns whether there is a `--challenge` with another word than its two.
pub(crate) fn are_rules_misnamed(matches: &ArgMatches<'_>) -> bool
    ensures { result
        ≡ spec.are_rules_misnamed (first_of (codes "challenge") (rows_of (found_of matches.now))) }
{
    match matches.get_str("challenge") {
        Some(text) => !are_rules(text),
        None => false,
    }
}

// Reads the rules, if each word of `--challenge` is one. Without the option they are the profile's.
pub(crate) fn read_rules(matches: &ArgMatches<'_>) -> Option<ChallengeRules>
    ensures { result
        ≡ spec.rules_named (first_of (codes "challenge") (rows_of (found_of matches.now))) }
{
    match matches.get_str("challenge") {
        Some(text) => rules_named(text),
        None => Some(ChallengeRules {
            of_all: false,
            only_s256: false,
        }),
    }
}

// Returns the rules that a value of `--challenge` lists, if each of its words is one.
fn rules_named(text: &str) -> Option<ChallengeRules>
    ensures { result ≡ spec.rules_named (Some text.now) }
{
    if !are_rules(text) {
        return None;
    }
    Some(ChallengeRules {
        of_all: lists(text, "all"),
        only_s256: lists(text, "S256"),
    })
}

// Returns whether each word between commas is that of a rule.
fn are_rules(text: &str) -> bool
    ensures { result ≡ list_all spec.is_rule (words_of text.now) }
{
    text.split(',').all(is_rule)
}

fn is_rule(word: &str) -> bool
    ensures { result ≡ spec.is_rule word.now }
{
    word == "all" || word == "S256"
}
