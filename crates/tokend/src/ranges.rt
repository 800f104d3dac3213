//! The options `--range` and `--accept`: the region numbers of this site, and those of all sites.

ghost use Rattle.std.specs.Prelude.{◌≡◌, ◌==◌, ◌<◌, Some, IfOk, IfSome, codes, length, option_map};
ghost use Rattle.std.specs.Prelude.{◌++◌, ◌∷◌, [], position};
ghost use Rattle.std.specs.List.{after_first, before_first, list_all};
ghost use Rattle.clap.specs.Words.{first_of, found_of, rows_of};
ghost use Rattle.tokend.specs.Kinds.{words_of};
ghost use Rattle.tokend.specs.Ranges as spec;

use crate::options::Service;
use clap::ArgMatches;
use std::alloc::{AllocError, Global};
use tk_edge::RegionRange;
use tk_format::read_decimal;

// Returns whether there is a `--range` that has not the number of `--region`.
pub(crate) fn is_range_misnamed(matches: &ArgMatches<'_>) -> bool
    ensures { result ≡ spec.is_range_misnamed
        (first_of (codes "region") (rows_of (found_of matches.now)))
        (first_of (codes "range") (rows_of (found_of matches.now))) }
{
    read_range(matches).is_none()
}

// Reads the numbers of the site, if the number of `--region` is one of them.
pub(crate) fn read_range(matches: &ArgMatches<'_>) -> Option<Option<RegionRange>>
    ensures { result ≡ spec.range_named
        (first_of (codes "region") (rows_of (found_of matches.now)))
        (first_of (codes "range") (rows_of (found_of matches.now))) }
{
    match matches.get_str("range") {
        Some(text) => range_named(matches.get_str("region"), text),
        None => Some(None),
    }
}

// Returns the range of a value of `--range`, if it has the number of a value of `--region`.
fn range_named(own: Option<&str>, text: &str) -> Option<Option<RegionRange>>
    ensures { result ≡ spec.range_named (option_map (λ s. s.now) own.entry) (Some text.now) }
{
    let Some(own) = own else {
        return None;
    };
    own_range(read_decimal(own.as_bytes()), range_in(text))
}

// Returns the range, if it has the region's own number.
fn own_range(own: Option<u64>, range: Option<RegionRange>) -> Option<Option<RegionRange>>
    ensures { result ≡ spec.own_range own range }
{
    let own = own?;
    let range = range?;
    if range.first as u64 <= own && own <= range.last as u64 {
        Some(Some(range))
    } else {
        None
    }
}

// Returns whether there is an `--accept` that isn't a list of ranges.
pub(crate) fn is_accept_misnamed(matches: &ArgMatches<'_>) -> bool
    ensures { result
        ≡ spec.is_accept_misnamed (first_of (codes "accept") (rows_of (found_of matches.now))) }
{
    match matches.get_str("accept") {
        Some(text) => !are_ranges(text),
        None => false,
    }
}

// Reads the numbers of all sites, if `--accept` is a list of ranges. No range: all numbers.
pub(crate) fn read_accepted(
    alloc: Global,
    matches: &ArgMatches<'_>,
) -> Result<Option<Vec<RegionRange>>, AllocError>
    ensures { IfOk result (λ read. option_map (λ ranges. ranges.items) read
        ≡ spec.accepted_named (first_of (codes "accept") (rows_of (found_of matches.now)))) }
{
    match matches.get_str("accept") {
        Some(text) => ranges_of(alloc, text),
        None => Ok(Some(Vec::new(alloc))),
    }
}

// Returns the ranges between commas, if each word there is one.
fn ranges_of(alloc: Global, text: &str) -> Result<Option<Vec<RegionRange>>, AllocError>
    ensures { IfOk result (λ read. option_map (λ ranges. ranges.items) read
        ≡ spec.accepted_named (Some text.now)) }
{
    if !are_ranges(text) {
        return Ok(None);
    }
    let ranges = listed(alloc, text)?;
    Ok(Some(ranges))
}

// Returns the ranges among the words between commas.
fn listed(alloc: Global, text: &str) -> Result<Vec<RegionRange>, AllocError>
    ensures { IfOk result (λ ranges. ranges.items ≡ spec.ranges_in (words_of text.now)) }
{
    let mut ranges: Vec<RegionRange> = Vec::new(alloc);
    for word in text.split(',') {
        push_range(&mut ranges, word)?;
    }
    Ok(ranges)
}

// Appends the range of a word, if the word is one.
fn push_range(ranges: &mut Vec<RegionRange>, word: &str) -> Result<(), AllocError>
    ensures { IfOk result (λ _. ranges.new.items
        ≡ ranges.old.items ++ spec.ranges_in (word.now ∷ [])) }
{
    if let Some(range) = range_in(word) {
        ranges.push(range)?;
    }
    Ok(())
}

// Returns whether each word between commas is a range.
fn are_ranges(text: &str) -> bool
    ensures { result ≡ list_all spec.is_range (words_of text.now) }
{
    text.split(',').all(is_range)
}

fn is_range(word: &str) -> bool
    ensures { result ≡ spec.is_range word.now }
{
    range_in(word).is_some()
}

// Returns the range whose text is `FIRST-LAST`.
fn range_in(text: &str) -> Option<RegionRange>
    ensures { result ≡ spec.range_in text.now }
{
    let (first, last) = parts(text.as_bytes());
    range_at(read_decimal(first)?, read_decimal(last)?)
}

// Returns the text before the first `-`, and the text behind that byte.
fn parts(text: &[u8]) -> (&[u8], &[u8])
    ensures front { result.0.now ≡ before_first (λ b. b == 45) text.now }
    ensures back { result.1.now ≡ after_first (λ b. b == 45) text.now }
{
    match first_dash(text) {
        Some(at) => (&text[..at], &text[at + 1..]),
        None => (text, &[]),
    }
}

// Returns the place of the first `-`.
fn first_dash(text: &[u8]) -> Option<usize>
    ensures value { result ≡ position (λ b. b == 45) text.now }
    ensures bound { IfSome result (λ at. at < length text.now) }
{
    text.iter().position(|b| *b == b'-')
}

// Returns the range of two numbers, if they are region numbers and don't fall.
fn range_at(first: u64, last: u64) -> Option<RegionRange>
    ensures { result ≡ spec.range_at first last }
{
    if 1 <= first && first <= last && last <= Service::MAX_REGION {
        Some(RegionRange {
            first: first as u16,
            last: last as u16,
        })
    } else {
        None
    }
}
