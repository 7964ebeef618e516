//! Civil dates and times in UTC, by `jiff`.

ghost use Rattle.std.specs.Prelude.{◌≡◌};
ghost use Rattle.func_time.specs.Moments.{civil_year, civil_month, civil_day, clock_hour, clock_minute, clock_second, clock_nanosecond, week_day};

use jiff_core::civil::DateTime;

/// The civil date and time of a moment.
pub(crate) fn civil(nanos: i64) -> DateTime
    ensures year { result.date.year ≡ civil_year nanos }
    ensures month { result.date.month ≡ civil_month nanos }
    ensures day { result.date.day ≡ civil_day nanos }
    ensures hour { result.time.hour ≡ clock_hour nanos }
    ensures minute { result.time.minute ≡ clock_minute nanos }
    ensures second { result.time.second ≡ clock_second nanos }
    ensures nanosecond { result.time.subsec_nanosecond ≡ clock_nanosecond nanos }
{
    DateTime::from_nanosecond_in_range(nanos as i128)
}

/// The day of the week, 0 for Sunday.
pub(crate) fn week_day(nanos: i64) -> u8
    ensures { result ≡ week_day nanos }
{
    let date = DateTime::from_nanosecond_in_range(nanos as i128).date;
    (date.weekday().index() + 1) % 7
}
