ghost use Rattle.std.specs.Prelude.{◌≡◌, ◌≤◌, true, [], length};
ghost use Rattle.calendars.specs.Entered.{among, apart, entry_answer, entry_after, less, EnteringClosesOne};
ghost use Rattle.std.proofs.Common.{rules};

use crate::Calendar;
use arrayvec::ArrayVec;
use days::LAST_DAY;
use terms::{Cause, InputCause, StateCause};

/// As many different days as can be entered.
pub const MOST_CLOSED_DAYS: usize = 64;

/// The days of the calendar below, less the days that are entered.
#[derive(Drop)]
pub struct ClosedDays<C> {
    below: C,
    entered: ArrayVec<u32, MOST_CLOSED_DAYS>,
    ghost few: { length entered.items ≤ 64 },
    ghost once: { apart entered.items ≡ true },
}

impl<C> ClosedDays<C> {
    /// The calendar below, with no day entered yet.
    pub fn over(below: C) -> ClosedDays<C>
        ensures below { result.below ≡ below }
        ensures entered { result.entered.items ≡ [] }
    {
        ClosedDays {
            below,
            entered: ArrayVec::new(),
        }
    }

    /// Enters a day, and answers how many different days are entered then. A number above 36,524 is no day; a 65th
    /// different day finds no room; a day that is entered already changes nothing.
    pub fn enter(&mut self, day: u32) -> Result<usize, Cause>
        ensures answer { result ≡ entry_answer self.old.entered.items day }
        ensures after { self.new.entered.items ≡ entry_after self.old.entered.items day }
        ensures below { self.new.below ≡ self.old.below }
    {
        if day > LAST_DAY {
            return Err(InputCause::NoDate.into());
        }
        if !self.holds(day) {
            if self.entered.is_full() {
                return Err(StateCause::TableFull.into());
            }
            self.entered.push(day);
        }
        Ok(self.entered.len())
    }

    /// Whether the day is entered.
    fn holds(&self, day: u32) -> bool
        ensures { result ≡ among self.now.entered.items day }
    {
        self.entered.contains(&day)
    }
}

impl<C: Calendar> Calendar for ClosedDays<C> {
    ghost opens = { λ c. less (C.opens c.below) c.entered.items };

    ghost within = { Prim.search rules };

    fn is_open(&self, day: u32) -> bool {
        self.below.is_open(day) && !self.holds(day)
    }

    fn next_open(&self, from: u32) -> Option<u32> {
        // Each turn asks the calendar below, which may know a quicker way than day by day.
        // `successors(..).find(..)` was tried: `find` asks that the days come to an end, and the search did not prove that.
        let mut at = from;
        while let Some(day) = self.below.next_open(at) {
            if !self.holds(day) {
                return Some(day);
            }
            at = day + 1;
        }
        None
    }
}

/// Entering a day takes that day out of the set, and no other; a refusal leaves the set as it was.
pub fn entering_closes_one_day()
    ensures { EnteringClosesOne }
{}
