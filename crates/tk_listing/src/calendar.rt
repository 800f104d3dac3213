//! Moments as texts (RFC 3339, 5.6).

ghost use Rattle.std.specs.Prelude.{◌≡◌, ◌++◌, ◌<◌, ◌^◌, OnOk};
ghost use Rattle.tk_listing.specs.Calendar as spec;

use std::alloc::AllocError;
use tk_format::Writer;
use tk_handle::Moment;

// A day of the Gregorian calendar.
#[derive(Clone, Copy)]
pub(crate) struct Date {
    /// The year, from 1970 to 9999 for a moment.
    pub year: u64,
    /// The month, from 1.
    pub month: u64,
    /// The day of the month, from 1.
    pub day: u64,
}

// Returns the date of the day that begins that many days after 1970-01-01.
pub(crate) fn date_of(days: u64) -> Date
    requires { days < 2 ^ 40 }
    ensures { result ≡ spec.date_of days }
{
    let count = days + 719_468;
    let day = count % 146_097;
    let year = year_of(day);
    let rest = day.saturating_sub(365 * year + year / 4 - year / 100);
    let month = (5 * rest + 2) / 153;
    let after_year = count / 146_097 * 400 + year;
    let day = rest.saturating_sub((153 * month + 2) / 5) + 1;
    if month < 10 {
        Date {
            year: after_year,
            month: month + 3,
            day,
        }
    } else {
        Date {
            year: after_year + 1,
            month: month - 9,
            day,
        }
    }
}

// Returns the year of a day, both counted from 1 March of a year that 400 divides.
fn year_of(day: u64) -> u64
    requires { day < 146_097 }
    ensures value { result ≡ spec.year_of day }
    ensures bound { result < 401 }
{
    (day - day / 1_460 + day / 36_524 - day / 146_096) / 365
}

/// Writes the moment as a date and a time in UTC, as in `2026-11-27T12:00:00Z`.
#[tactic(auto, unfolding(crate::specs::Calendar::moment_text))]
pub(crate) fn put_moment(writer: &mut Writer, moment: Moment) -> Result<(), AllocError>
    ensures { OnOk result (writer.new ≡ writer.old ++ spec.moment_text moment) }
{
    let seconds = moment.seconds();
    put_day(writer, seconds / 86_400)?;
    writer.put_bytes(b"T")?;
    put_time(writer, seconds % 86_400)?;
    writer.put_bytes(b"Z")
}

// Writes the date of the day that begins that many days after 1970-01-01.
#[tactic(auto, unfolding(crate::specs::Calendar::day_text))]
fn put_day(writer: &mut Writer, days: u64) -> Result<(), AllocError>
    requires { days < 2 ^ 40 }
    ensures { OnOk result (writer.new ≡ writer.old ++ spec.day_text days) }
{
    let date = date_of(days);
    put_date(writer, date)
}

// Writes a date, as in `2026-11-27`.
fn put_date(writer: &mut Writer, date: Date) -> Result<(), AllocError>
    ensures { OnOk result (writer.new ≡ writer.old ++ spec.date_text date) }
{
    put_two(writer, date.year / 100)?;
    put_two(writer, date.year)?;
    writer.put_bytes(b"-")?;
    put_two(writer, date.month)?;
    writer.put_bytes(b"-")?;
    put_two(writer, date.day)
}

// Writes the time of the given second of a day, as in `12:00:00`.
#[tactic(auto, unfolding(crate::specs::Calendar::time_text))]
fn put_time(writer: &mut Writer, second: u64) -> Result<(), AllocError>
    ensures { OnOk result (writer.new ≡ writer.old ++ spec.time_text second) }
{
    put_two(writer, second / 3_600)?;
    writer.put_bytes(b":")?;
    put_two(writer, second / 60 % 60)?;
    writer.put_bytes(b":")?;
    put_two(writer, second % 60)
}

// Writes the last two digits of a number.
fn put_two(writer: &mut Writer, number: u64) -> Result<(), AllocError>
    ensures { OnOk result (writer.new ≡ writer.old ++ spec.two_digits number) }
{
    let (tens, ones) = ((number / 10 % 10) as u8, (number % 10) as u8);
    writer.put_bytes(&[b'0' + tens, b'0' + ones])
}
