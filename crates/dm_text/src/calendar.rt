// Dates, both ways.
ghost use Rattle.std.specs.Prelude.{◌≡◌, ◌++◌, unsigned_abs, IfSome, OnOk};
ghost use Rattle.jiff_core.specs.Calendar.{IsEpochDay};
ghost use Rattle.dm_text.specs.Calendar as spec;
ghost use Rattle.dm_text.specs.Calendar.{Parts};
ghost use Rattle.dm_text.specs.Fronts.{KeepsFront};
ghost use Rattle.dm_text.specs.Printing.{date_text, parts_text};
ghost use Rattle.dm_types.specs.Ranges.{IsDay};

use crate::digits::{push_places, read_between};
use dm_types::Bytes;
use jiff_core::civil::Date;
use std::alloc::AllocError;

/// The day of a date `yyyy-MM-dd`, counted from 1970-01-01.
#[tactic(auto, using(std::proofs::lemmas::Bool::Decides::nat_tests), unfolding(crate::specs::Calendar::date))]
pub(crate) fn read_date(text: &[u8]) -> Option<i32>
    ensures value { result ≡ spec.date text.now }
    ensures bound { IfSome result IsEpochDay }
{
    if text.len() != 10 || text[4] != b'-' || text[7] != b'-' {
        return None;
    }
    let year = read_between(text, 0, 4)?;
    let month = read_between(text, 5, 7)?;
    let day = read_between(text, 8, 10)?;
    day_number(year, month, day)
}

// The day of a year, month and day of the month, where the calendar has it.
fn day_number(year: u128, month: u128, day: u128) -> Option<i32>
    ensures value { result ≡ spec.calendar_day year month day }
    ensures bound { IfSome result IsEpochDay }
{
    if year < 1 || year > 9999 || month < 1 || month > 12 || day < 1 || day > 31 {
        return None;
    }
    match Date::new(year as i16, month as i8, day as i8) {
        Ok(date) => Some(date.to_unix_epoch_day()),
        Err(_) => None,
    }
}

/// The date of a day, counted from 1970-01-01. Its year is from 1 to 9999.
pub fn date_of(day: i64) -> Date
    requires { IsDay day }
    ensures { Parts (unsigned_abs result.year) result.month result.day day }
{
    Date::from_unix_epoch_day(day).unwrap()
}

/// Adds a date as `yyyy-MM-dd`.
pub(crate) fn push_date(out: &mut Bytes, day: i64) -> Result<(), AllocError>
    requires { IsDay day }
    ensures ok { OnOk result (out.new ≡ out.old ++ date_text day) }
    ensures front { KeepsFront out.old out.new }
{
    let date = date_of(day);
    push_parts(out, date.year.unsigned_abs(), date.month, date.day)
}

fn push_parts(out: &mut Bytes, year: u16, month: u8, day: u8) -> Result<(), AllocError>
    ensures ok { OnOk result (out.new ≡ out.old ++ parts_text year month day) }
    ensures front { KeepsFront out.old out.new }
{
    push_places(out, u128::from(year), 4)?;
    out.push(b'-')?;
    push_places(out, u128::from(month), 2)?;
    out.push(b'-')?;
    push_places(out, u128::from(day), 2)
}
