ghost use Rattle.std.specs.Prelude.{◌≡◌};
ghost use Rattle.days.specs.Weekdays.{weekday};

use std::fmt;

/// A day of the week, in the order that day 0, a Saturday, gives.
#[derive(Clone, Copy, PartialEq, Eq, Debug)]
pub enum Weekday {
    Saturday,
    Sunday,
    Monday,
    Tuesday,
    Wednesday,
    Thursday,
    Friday,
}

/// The weekday of a day.
// A function: `Weekday::from(number)` would not say that a day has that number.
pub fn weekday_of(day: u32) -> Weekday
    ensures { result ≡ weekday day }
{
    match day % 7 {
        0 => Weekday::Saturday,
        1 => Weekday::Sunday,
        2 => Weekday::Monday,
        3 => Weekday::Tuesday,
        4 => Weekday::Wednesday,
        5 => Weekday::Thursday,
        _ => Weekday::Friday,
    }
}

impl fmt::Display for Weekday {
    fn fmt<W: fmt::Write>(&self, f: &mut fmt::Formatter<W>) -> fmt::Result {
        match self {
            Weekday::Saturday => f.write_str("Saturday"),
            Weekday::Sunday => f.write_str("Sunday"),
            Weekday::Monday => f.write_str("Monday"),
            Weekday::Tuesday => f.write_str("Tuesday"),
            Weekday::Wednesday => f.write_str("Wednesday"),
            Weekday::Thursday => f.write_str("Thursday"),
            Weekday::Friday => f.write_str("Friday"),
        }
    }
}
