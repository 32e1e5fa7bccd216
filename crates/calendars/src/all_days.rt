ghost use Rattle.calendars.specs.Sets.{all_days};
ghost use Rattle.std.proofs.Common.{rules};

use crate::Calendar;
use days::LAST_DAY;

/// Every day is open.
#[derive(Clone, Copy)]
pub struct AllDays;

impl Calendar for AllDays {
    ghost opens = { λ _. all_days };

    ghost within = { Prim.search rules };

    fn is_open(&self, day: u32) -> bool {
        day <= LAST_DAY
    }

    fn next_open(&self, from: u32) -> Option<u32> {
        if from <= LAST_DAY { Some(from) } else { None }
    }
}
