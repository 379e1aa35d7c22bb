// Moments, both ways.
ghost use Rattle.jiff_core.specs.Calendar.{IsEpochDay};
ghost use Rattle.std.specs.Prelude.{pos, ◌<ℤ◌, ◌+ℤ◌, ◌*ℤ◌, ◌≡◌, ◌<◌, ◌≤◌, ◌+◌, ◌++◌, ◌∷◌, length, IfSome, OnOk};
ghost use Rattle.dm_text.specs.Moments as spec;
ghost use Rattle.dm_text.specs.Fronts.{KeepsFront};
ghost use Rattle.dm_text.specs.Printing.{clock_text, moment_text};
ghost use Rattle.dm_types.specs.Ranges.{IsDay, day_part};

use crate::calendar::{push_date, read_date};
use crate::decimals::read_fraction;
use crate::digits::{push_places, read_between};
use dm_types::{Bytes, DAY_MICROS};
use std::alloc::AllocError;

/// The moment of a date and a time of the day, in microseconds from 1970-01-01 00:00.
#[tactic(auto, using(std::proofs::lemmas::Bool::Decides::nat_tests), unfolding(crate::specs::Moments::timestamp))]
pub(crate) fn read_timestamp(text: &[u8]) -> Option<i64>
    ensures { result ≡ spec.timestamp text.now }
{
    if text.len() < 11 {
        return None;
    }
    let last = text.len() - 1;
    match (text[10], text[last]) {
        (b' ', _) => read_moment(&text[..10], &text[11..]),
        (b'T', b'Z') => read_moment(&text[..10], &text[11..last]),
        _ => None,
    }
}

#[tactic(auto, using(std::proofs::lemmas::Bool::Decides::nat_tests), unfolding(crate::specs::Moments::moment))]
fn read_moment(day: &[u8], time: &[u8]) -> Option<i64>
    ensures { result ≡ spec.moment day.now time.now }
{
    let days = read_date(day)?;
    let (clock, behind) = time.split_at_checked(8)?;
    let seconds = read_clock(clock)?;
    let micros = read_behind_second(behind)?;
    Some(moment_of(days, seconds * 1_000_000 + micros))
}

fn moment_of(days: i32, micros: u128) -> i64
    requires day { IsEpochDay days }
    requires clock { pos micros <ℤ DAY_MICROS }
    ensures { result ≡ days *ℤ DAY_MICROS +ℤ pos micros }
{
    i64::from(days) * DAY_MICROS + micros as i64
}

// The two digits at a place, where their number is below a limit.
fn read_below(text: &[u8], at: usize, limit: u128) -> Option<u128>
    requires { at + 2 ≤ length text.now }
    ensures value { result ≡ spec.two_below limit at text.now }
    ensures bound { IfSome result (λ n. n < limit) }
{
    let number = read_between(text, at, at + 2)?;
    if number < limit { Some(number) } else { None }
}

// The seconds of a time `HH:mm:ss`.
#[tactic(auto, using(std::proofs::lemmas::Bool::Decides::nat_tests), unfolding(crate::specs::Moments::clock))]
fn read_clock(text: &[u8]) -> Option<u128>
    ensures value { result ≡ spec.clock text.now }
    ensures bound { IfSome result (λ n. n < 86_400) }
{
    if text.len() != 8 || text[2] != b':' || text[5] != b':' {
        return None;
    }
    let hours = read_below(text, 0, 24)?;
    let minutes = read_below(text, 3, 60)?;
    let seconds = read_below(text, 6, 60)?;
    Some((hours * 60 + minutes) * 60 + seconds)
}

// The microseconds of nothing, or of a point and digits.
#[tactic(auto, using(std::proofs::lemmas::Bool::Decides::nat_tests), unfolding(crate::specs::Moments::behind_second))]
fn read_behind_second(text: &[u8]) -> Option<u128>
    ensures value { result ≡ spec.behind_second text.now }
    ensures bound { IfSome result (λ n. n < 1_000_000) }
{
    match text.split_first() {
        None => Some(0),
        Some((b'.', digits)) => read_fraction(digits, 6),
        Some(_) => None,
    }
}

/// Adds a time of the day as `HH:mm:ss.ffffff`.
#[tactic(auto, using(std::proofs::lemmas::Bool::Decides::nat_tests), unfolding(crate::specs::Printing::clock_text))]
fn push_clock(out: &mut Bytes, micros: u64) -> Result<(), AllocError>
    ensures ok { OnOk result (out.new ≡ out.old ++ clock_text micros) }
    ensures front { KeepsFront out.old out.new }
{
    push_places(out, u128::from(micros / 3_600_000_000), 2)?;
    out.push(b':')?;
    push_places(out, u128::from(micros / 60_000_000 % 60), 2)?;
    out.push(b':')?;
    push_places(out, u128::from(micros / 1_000_000 % 60), 2)?;
    out.push(b'.')?;
    push_places(out, u128::from(micros), 6)
}

/// Adds a moment as `yyyy-MM-dd HH:mm:ss.ffffff`.
pub(crate) fn push_moment(out: &mut Bytes, moment: i64) -> Result<(), AllocError>
    requires { IsDay (day_part moment) }
    ensures ok { OnOk result (out.new ≡ out.old ++ moment_text moment) }
    ensures front { KeepsFront out.old out.new }
{
    push_date(out, moment.div_euclid(DAY_MICROS))?;
    out.push(b' ')?;
    push_clock(out, moment.rem_euclid(DAY_MICROS) as u64)
}
