ghost use Rattle.std.specs.Prelude.{◌≡◌};
ghost use Rattle.std.specs.Result.{result_map_both};
ghost use Rattle.calendars.specs.Sets.{table_days, table_making};
ghost use Rattle.std.proofs.Common.{rules};

use crate::Calendar;
use days::Year;
use terms::InputCause;

/// A flag for each day of one year; no day of another year is open.
#[derive(Clone, Copy)]
pub struct YearTable {
    year: Year,
    flags: [bool; 366],
}

impl YearTable {
    /// The table of a year from 0 to 99, which stands for 2000 to 2099. In a year of 365 days the last flag is not looked at.
    pub fn new(year: u32, flags: [bool; 366]) -> Result<YearTable, InputCause>
        ensures { result_map_both (λ t. (t.year.value, t.flags)) (λ e. e) result ≡ table_making year flags }
    {
        let year = Year::new(year)?;
        Ok(YearTable { year, flags })
    }
}

impl Calendar for YearTable {
    ghost opens = { λ t. table_days t.year.value t.flags };

    ghost within = { Prim.search rules };

    fn is_open(&self, day: u32) -> bool {
        let first = self.year.first_day();
        day >= first && day < first + self.year.length() && self.flags[(day - first) as usize]
    }

    fn next_open(&self, from: u32) -> Option<u32> {
        let first = self.year.first_day();
        let start = from.max(first);
        (start..first + self.year.length()).find(|day| self.is_open(*day))
    }
}
