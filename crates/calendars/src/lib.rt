//! Calendars: each means one set of days, and answers whether a day is open and which open day comes next.
#![tactic(auto)]

ghost use Rattle.std.specs.Prelude.{◌≡◌, ℕ, ◌≤◌, Bool, true};
ghost use Rattle.calendars.specs.Sets.{next_member, Least};

mod all_days;
mod closed_days;
mod processing;
mod weekdays;
mod year_table;

pub use all_days::AllDays;
pub use closed_days::{ClosedDays, MOST_CLOSED_DAYS, entering_closes_one_day};
pub use processing::{
    UsableDays, count_open_days, earliest_processing_day, last_usable_day, usable_days,
};
pub use weekdays::Weekdays;
pub use year_table::YearTable;

/// One set of days, each a number from 0 to 36,524. A question takes any number, is never refused and changes nothing.
pub trait Calendar {
    /// The set: whether a day is in it.
    ghost opens: { Self → ℕ → Bool };

    /// Whether the day is open: it is exactly if it is in the set.
    fn is_open(&self, day: u32) -> bool
        ensures { result ≡ opens self.now day };

    /// The least open day that is not below `from`, absent exactly if there is none.
    fn next_open(&self, from: u32) -> Option<u32>
        ensures named { result ≡ next_member (opens self.now) from }
        ensures least { Least (opens self.now) from result };

    ghost within: { (c : Self) (d : ℕ) → opens c d ≡ true → d ≤ 36524 };
}
