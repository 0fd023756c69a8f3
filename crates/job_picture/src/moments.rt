//! Moments and spans of time for people.

ghost use Rattle.std.specs.Prelude.{◌≡◌, string_bytes, IfOk};
ghost use Rattle.job_picture.specs.Moments as moments;

use std::alloc::{AllocError, Global};

/// The day of the week on which the day of a number since 1970 falls.
#[tactic(auto, unfolding(crate::specs::Moments::weekday))]
fn weekday(day: u64) -> &'static str
    ensures { result.now ≡ moments.weekday day }
{
    let day = day % 7;
    if day == 0 {
        "Thu"
    } else if day == 1 {
        "Fri"
    } else if day == 2 {
        "Sat"
    } else if day == 3 {
        "Sun"
    } else if day == 4 {
        "Mon"
    } else if day == 5 {
        "Tue"
    } else {
        "Wed"
    }
}

/// A number below 100, in two digits.
fn two_digits(alloc: Global, number: u64) -> Result<String, AllocError>
    ensures { IfOk result (λ made. string_bytes made ≡ moments.two_digits number) }
{
    let tens = number / 10;
    let ones = number % 10;
    format!(in alloc; "{tens}{ones}")
}

/// A moment, in seconds since 1970, as `Sat 07:41 UTC`.
pub fn moment_text(alloc: Global, at: u64) -> Result<String, AllocError>
    // Proved: Moments are told by day, hour and minute, UTC, and spans by their two largest units.
    // By `span_text`.
    ensures { IfOk result (λ made. string_bytes made ≡ moments.moment_text at) }
{
    let day = weekday(at / 86_400);
    let hour = two_digits(alloc, at / 3600 % 24)?;
    let minute = two_digits(alloc, at / 60 % 60)?;
    format!(in alloc; "{day} {hour}:{minute} UTC")
}

/// A span of seconds: in days and hours, in hours and minutes, or in minutes.
#[tactic(auto, unfolding(crate::specs::Moments::span_text))]
pub fn span_text(alloc: Global, seconds: u64) -> Result<String, AllocError>
    ensures { IfOk result (λ made. string_bytes made ≡ moments.span_text seconds) }
{
    let days = seconds / 86_400;
    let hours = seconds / 3600;
    let minutes = seconds / 60;
    if seconds < 3600 {
        return format!(in alloc; "{minutes} min");
    }
    if seconds < 86_400 {
        let minutes = minutes % 60;
        return format!(in alloc; "{hours} h {minutes} min");
    }
    let hours = hours % 24;
    format!(in alloc; "{days} d {hours} h")
}
