//! The functions on times.
#![tactic(auto)]

mod civil;
mod laws;
mod parts;
mod printing;
mod reading;
mod times;

pub use laws::moments_are_those_of_dates_and_times;
pub use parts::{day, hour, minute, month, nanosecond, second, weekday, year};
pub use printing::is_time_format;
pub use times::{format_time, time, unix, unix_micro, unix_milli, unix_nano, unix_seconds};

#[cfg(test)]
mod tests;
