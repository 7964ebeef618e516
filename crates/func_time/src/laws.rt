//! Laws on times.

ghost use Rattle.std.specs.Prelude.{◌≡◌, true, ℕ, List, Some, Ok};
ghost use Rattle.jiff_core.specs.DateTime.{civil_nanos};
ghost use Rattle.jiff_core.specs.declared.civil.datetime.DateTime.{DateTime};
ghost use Rattle.jiff_strtime.specs.Civil.{IsDateTimeOf};
ghost use Rattle.jiff_strtime.specs.Reader.{parse_text};
ghost use Rattle.jiff_strtime.specs.Text.{parts_of};
ghost use Rattle.jiff_strtime.specs.declared.tm.BrokenDownTime.{BrokenDownTime};
ghost use Rattle.func_time.specs.Formats.{is_format, full_format, full_text, moment_in, ranged};

/// The moment of a text is that of the date and time which `jiff` makes of the parts that it reads.
pub fn moments_are_those_of_dates_and_times()
    ensures { (format text : List ℕ) (parts : BrokenDownTime) (date : DateTime)
        (hour minute second : ℕ) → is_format format ≡ true
        → parse_text (full_format format) (full_text format text) ≡ Ok (parts_of parts)
        → parts.hour ≡ Some hour → parts.minute ≡ Some minute → parts.second ≡ Some second
        → IsDateTimeOf parts date → moment_in text format ≡ ranged (civil_nanos date) }
{}
