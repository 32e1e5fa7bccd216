ghost use Rattle.std.specs.Prelude.{◌≡◌};
ghost use Rattle.calendars.specs.Processing.{earliest_day, last_usable, open_count, usable};

use crate::Calendar;
use days::LAST_DAY;
use terms::{InputCause, Service};

/// How many days after its processing day a multi-day file may still use.
const DAYS_AFTER: u32 = 39;

/// The days that a file may use at the earliest.
#[derive(Clone, Copy, PartialEq, Eq, Debug)]
pub struct UsableDays {
    /// The earliest processing day.
    pub first: u32,
    /// The last day of a file with that processing day.
    pub last: u32,
    /// How many of the days from the first to the last, both counted, are open.
    pub open_days: u32,
}

/// The earliest processing day of a file that is opened on a day: the next open day after it, if any; for Faster
/// Payments the opening day itself. A number above 36,524 is no opening day.
// Service, opening day and calendar stay three arguments: a struct of them would be made for one call and taken apart in it.
pub fn earliest_processing_day<C: Calendar>(
    service: Service,
    opening: u32,
    calendar: &C,
) -> Result<Option<u32>, InputCause>
    ensures { result ≡ earliest_day service opening (C.opens calendar.now) }
{
    if opening > LAST_DAY {
        return Err(InputCause::NoDate);
    }
    match service {
        Service::FasterPayments => Ok(Some(opening)),
        _ => Ok(calendar.next_open(opening + 1)),
    }
}

/// The last day that a file with that processing day may use: in a multi-day file the 39th after it, if there is such a
/// day, else the last of all. A Faster Payments file is never multi-day.
pub fn last_usable_day(service: Service, processing: u32) -> u32
    ensures { result ≡ last_usable service processing }
{
    match service {
        Service::FasterPayments => processing.min(LAST_DAY),
        _ => processing.saturating_add(DAYS_AFTER).min(LAST_DAY),
    }
}

/// How many days from `first` to `last`, both of them too, are open.
pub fn count_open_days<C: Calendar>(calendar: &C, first: u32, last: u32) -> u32
    ensures { result ≡ open_count (C.opens calendar.now) first last }
{
    // At most 36,525 days are counted, so the sum fits.
    (first..last.min(LAST_DAY) + 1).fold(0u32, |count, day| {
        count.wrapping_add(u32::from(calendar.is_open(day)))
    })
}

/// The days that a file opened on a day may use at the earliest, if there are any. A number above 36,524 is no opening day.
pub fn usable_days<C: Calendar>(
    service: Service,
    opening: u32,
    calendar: &C,
) -> Result<Option<UsableDays>, InputCause>
    ensures { result ≡ usable service opening (C.opens calendar.now) }
{
    let Some(first) = earliest_processing_day(service, opening, calendar)? else {
        return Ok(None);
    };
    let last = last_usable_day(service, first);
    let open_days = count_open_days(calendar, first, last);
    Ok(Some(UsableDays {
        first,
        last,
        open_days,
    }))
}
