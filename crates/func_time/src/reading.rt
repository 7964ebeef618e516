//! From text to a moment, by `jiff`.

ghost use Rattle.std.specs.Prelude.{◌≡◌, ◌++◌, false, IfOk, IfSome, OnOk, is_some};
ghost use Rattle.jiff_strtime.specs.Text.{parts_of};
ghost use Rattle.func_time.specs.Formats.{has_from, full_format, full_text, civil_moment, moment_of, moment_in, unless_has, ranged, is_date, is_time};
ghost use Rattle.jiff_core.specs.DateTime.{civil_nanos};
ghost use Rattle.pdata_value.specs.Answers.{Answers};

use jiff_core::civil::{Date, DateTime, Time};
use jiff_strtime::BrokenDownTime;
use pdata_value::{EvalErr, EvalStop};
use std::alloc::{AllocError, Global};

// Whether the format has the directive with this letter.
#[tactic(auto, using(crate::proofs::Runs::has_nil, crate::proofs::Runs::has_found, crate::proofs::Runs::has_after, crate::proofs::Runs::has_before))]
fn has(format: &[u8], letter: u8) -> bool
    ensures { result ≡ has_from false letter format.now }
{
    let mut after = false;
    for &byte in format {
        if after {
            if byte == letter {
                return true;
            }
            after = false;
        } else {
            after = byte == b'%';
        }
    }
    false
}

// The bytes that are put after a format or a text where the format lacks a directive.
fn add_unless(out: &mut Vec<u8>, format: &[u8], letter: u8, more: &[u8]) -> Result<(), AllocError>
    ensures { OnOk result (out.new.items ≡ out.old.items ++ unless_has format.now letter more.now) }
{
    if has(format, letter) {
        return Ok(());
    }
    out.extend_from_slice(more)
}

#[tactic(auto, unfolding(crate::specs::Formats::full_format))]
fn complete_format(alloc: Global, format: &[u8]) -> Result<Vec<u8>, AllocError>
    ensures { IfOk result (λ v. v.items ≡ full_format format.now) }
{
    let mut out = Vec::new(alloc);
    out.extend_from_slice(format)?;
    add_unless(&mut out, format, b'Y', b";%Y")?;
    add_unless(&mut out, format, b'm', b";%m")?;
    add_unless(&mut out, format, b'd', b";%d")?;
    add_unless(&mut out, format, b'H', b";%H")?;
    add_unless(&mut out, format, b'M', b";%M")?;
    add_unless(&mut out, format, b'S', b";%S")?;
    Ok(out)
}

#[tactic(auto, unfolding(crate::specs::Formats::full_text))]
fn complete_text(alloc: Global, format: &[u8], text: &[u8]) -> Result<Vec<u8>, AllocError>
    ensures { IfOk result (λ v. v.items ≡ full_text format.now text.now) }
{
    let mut out = Vec::new(alloc);
    out.extend_from_slice(text)?;
    add_unless(&mut out, format, b'Y', b";1970")?;
    add_unless(&mut out, format, b'm', b";01")?;
    add_unless(&mut out, format, b'd', b";01")?;
    add_unless(&mut out, format, b'H', b";00")?;
    add_unless(&mut out, format, b'M', b";00")?;
    add_unless(&mut out, format, b'S', b";00")?;
    Ok(out)
}

// A moment that fits 64 bits.
fn moment_at(date: Date, time: Time) -> Result<i64, EvalErr>
    ensures { result ≡ ranged (civil_nanos (record { date = date; time = time })) }
{
    let nanos = DateTime { date, time }.to_nanosecond();
    if nanos < i64::MIN as i128 || nanos > i64::MAX as i128 {
        return Err(EvalErr::Range);
    }
    Ok(nanos as i64)
}

// The date, if the calendar has it.
fn date_at(year: i16, month: u8, day: u8) -> Option<Date>
    ensures value { IfSome result (λ d. (d.year ≡ year) × (d.month ≡ month) × (d.day ≡ day)) }
    ensures found { is_some result ≡ is_date year month day }
{
    if month > 12 || day > 31 {
        return None;
    }
    Date::new(year, month as i8, day as i8).ok()
}

// The time, if a clock shows it.
fn time_at(hour: u8, minute: u8, second: u8) -> Option<Time>
    ensures value { IfSome result
        (λ t. (t.hour ≡ hour) × (t.minute ≡ minute) × (t.second ≡ second)
        × (t.subsec_nanosecond ≡ 0)) }
    ensures found { is_some result ≡ is_time hour minute second }
{
    if hour > 23 || minute > 59 || second > 59 {
        return None;
    }
    Time::new(hour as i8, minute as i8, second as i8, 0).ok()
}

// The moment of a civil date and time in UTC.
fn civil_moment(
    year: i16,
    month: u8,
    day: u8,
    hour: u8,
    minute: u8,
    second: u8,
) -> Result<i64, EvalErr>
    ensures { result ≡ civil_moment year month day hour minute second }
{
    let Some(date) = date_at(year, month, day) else {
        return Err(EvalErr::BadText);
    };
    let Some(time) = time_at(hour, minute, second) else {
        return Err(EvalErr::BadText);
    };
    moment_at(date, time)
}

// The moment of the parts.
fn moment(parts: &BrokenDownTime<'_>) -> Result<i64, EvalErr>
    ensures { result ≡ moment_of (parts_of parts.now) }
{
    let (Some(year), Some(month), Some(day)) = (parts.year, parts.month, parts.day) else {
        return Err(EvalErr::BadText);
    };
    let (Some(hour), Some(minute), Some(second)) = (parts.hour, parts.minute, parts.second) else {
        return Err(EvalErr::BadText);
    };
    civil_moment(year, month, day, hour, minute, second)
}

/// The moment that a text has under a format.
#[tactic(auto, unfolding(crate::specs::Formats::moment_in))]
pub(crate) fn moment_in(alloc: Global, text: &str, format: &str) -> Result<i64, EvalStop>
    ensures { Answers result (moment_in text.now format.now) }
{
    let full_format = complete_format(alloc, format.as_bytes())?;
    let full_text = complete_text(alloc, format.as_bytes(), text.as_bytes())?;
    match jiff_strtime::parse(full_format.as_slice(), full_text.as_slice()) {
        Ok(parts) => match moment(&parts) {
            Ok(moment) => Ok(moment),
            Err(error) => Err(EvalStop::Err(error)),
        },
        Err(_) => Err(EvalStop::Err(EvalErr::BadText)),
    }
}
