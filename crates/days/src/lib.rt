//! Days by number, from 0 to 36,524: their text in a file, their years and their weekdays.
#![tactic(auto)]

mod date;
mod weekday;
mod year;

pub use date::{date_laws_hold, date_samples_hold, read_date, write_date};
pub use weekday::{Weekday, weekday_of};
pub use year::Year;

/// The last day: day 365 of the year 2099. Day 0 is the first of 2000, a Saturday.
pub const LAST_DAY: u32 = 36524;
