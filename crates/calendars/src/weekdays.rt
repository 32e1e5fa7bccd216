ghost use Rattle.calendars.specs.Sets.{week_days};
ghost use Rattle.std.proofs.Common.{rules};

use crate::Calendar;
use days::LAST_DAY;

/// Mondays to Fridays are open.
#[derive(Clone, Copy)]
pub struct Weekdays;

impl Calendar for Weekdays {
    ghost opens = { λ _. week_days };

    ghost within = { Prim.search rules };

    fn is_open(&self, day: u32) -> bool {
        day <= LAST_DAY && day % 7 >= 2
    }

    fn next_open(&self, from: u32) -> Option<u32> {
        if from > LAST_DAY {
            return None;
        }
        // Day 0 is a Saturday, and the last day of all a Thursday.
        match from % 7 {
            0 => Some(from + 2),
            1 => Some(from + 1),
            _ => Some(from),
        }
    }
}
