ghost use Rattle.std.specs.Prelude.{◌≡◌, ◌≤◌};
ghost use Rattle.std.specs.Result.{result_map_both};
ghost use Rattle.days.specs.Dates.{first_day_of, year_length, year_making, year_finding};

use crate::LAST_DAY;
use terms::InputCause;

/// A year from 0 to 99, which stands for 2000 to 2099.
#[derive(Clone, Copy)]
pub struct Year {
    value: u32,
    ghost bound: { value ≤ 99 },
}

impl Year {
    // Two functions: `Year::try_from(number)` would not say whether a year or a day has that number.

    /// The year of that number; one above 99 is no year.
    pub fn new(value: u32) -> Result<Year, InputCause>
        ensures { result_map_both (λ y. y.value) (λ e. e) result ≡ year_making value }
    {
        if value > 99 {
            return Err(InputCause::NoDate);
        }
        Ok(Year { value })
    }

    /// The year that a day lies in. A number above 36,524 is no day.
    pub fn of_day(day: u32) -> Result<Year, InputCause>
        ensures { result_map_both (λ y. y.value) (λ e. e) result ≡ year_finding day }
    {
        if day > LAST_DAY {
            return Err(InputCause::NoDate);
        }
        // A run of four years has 1,461 days, and the leap year comes first in it.
        Ok(Year {
            value: 4 * day / 1461,
        })
    }

    /// The year's number, from 0 to 99.
    pub fn number(self) -> u32
        ensures { result ≡ self.value }
    {
        self.value
    }

    /// The number of the year's first day.
    pub fn first_day(self) -> u32
        ensures { result ≡ first_day_of self.value }
    {
        365 * self.value + (self.value + 3) / 4
    }

    /// How many days the year has: 366 where 4 divides its number, else 365.
    pub fn length(self) -> u32
        ensures { result ≡ year_length self.value }
    {
        if self.value % 4 == 0 { 366 } else { 365 }
    }
}
