//! A time as a line has it. Definitions: specs/LogLines. Tests: leaf_tests/src/logs.rt.
ghost use Rattle.std.specs.Prelude.{◌≡◌, ◌≤◌, ◌++◌, ◌*ℤ◌, IfOk, MatchOption, codes, pos, string_bytes};
ghost use Rattle.jiff.specs.Names.{iso_datetime_text};
ghost use Rattle.jiff_core.specs.DateTime.{civil_nanos};
ghost use Rattle.wm_log.specs.LogLines.{IsTimeText, time_end};

use jiff::Timestamp;
use jiff::civil::DateTime;
use jiff::tz::Offset;
use std::alloc::Global;
use wm_disk::NoMemory;

/// The instant of a time in unix seconds. `None` behind the year 9999.
fn instant_of(seconds: u64) -> Option<Timestamp>
    ensures { MatchOption result (time_end ≤ seconds) (λ instant. instant.nanosecond ≡ pos seconds *ℤ pos 1000000000) }
{
    let Ok(second) = i64::try_from(seconds) else {
        return None;
    };
    match Timestamp::from_second(second) {
        Ok(instant) => Some(instant),
        Err(_) => None,
    }
}

/// What a clock at Greenwich shows at an instant.
fn clock_at(instant: Timestamp) -> DateTime
    ensures { civil_nanos result ≡ instant.nanosecond }
{
    Offset::UTC.to_datetime(instant)
}

/// What a clock at Greenwich shows, as RFC 3339 has it.
fn clock_text(alloc: Global, time: DateTime) -> Result<String, NoMemory>
    ensures { IfOk result (λ text. string_bytes text ≡ iso_datetime_text time ++ codes "Z") }
{
    Ok(format!(in alloc; "{time}Z")?)
}

/// A time in unix seconds, as RFC 3339 has it, at Greenwich: `2026-11-29T21:40:00Z`. Behind the year 9999 it is the number.
pub(crate) fn time_text(alloc: Global, seconds: u64) -> Result<String, NoMemory>
    ensures { IfOk result (λ text. IsTimeText seconds (string_bytes text)) }
{
    match instant_of(seconds) {
        Some(instant) => clock_text(alloc, clock_at(instant)),
        None => Ok(format!(in alloc; "{seconds}")?),
    }
}
