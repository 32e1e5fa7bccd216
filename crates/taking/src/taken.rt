ghost use Rattle.std.specs.Prelude.{◌≡◌, ◌+◌, ◌<◌, ◌≤◌, length, OnOk};
ghost use Rattle.std.specs.Result.{result_map_both};
ghost use Rattle.lines.specs.Places.{place_reading};
ghost use Rattle.taking.specs.Taking.{open_at, taking};

use calendars::Calendar;
use days::read_date;
use lines::{Fault, Line, read_line};

/// Reads the line with this number at the front of the bytes: finds its line feed, tests its length, and judges its fields from the left.
#[tactic(auto, using(crate::proofs::Feeds::read_within))]
pub fn take_line<L: Line>(
    number: usize,
    bytes: &[u8],
    context: &L::Context,
) -> Result<L::Value, Fault>
    ensures value { result_map_both L.says (λ e. e) result ≡ taking number L.LENGTH (λ l. place_reading (L.place context.now l) l) bytes.now }
    ensures within { OnOk result (L.LENGTH < length bytes.now) }
{
    read_line::<L>(bytes, context).map_err(|fault| fault.in_line(number))
}

/// Whether the calendar opens the day that stands after the first `from` bytes, if one stands there.
#[tactic(auto, unfolding(crate::specs::Taking::open_at, tables::specs::Forms::read_form, tables::specs::Walks::part))]
pub fn opens_day_at<C: Calendar>(calendar: &C, bytes: &[u8], from: usize) -> bool
    ensures { result ≡ open_at (C.opens calendar.now) from bytes.now }
{
    from.checked_add(6)
        .and_then(|to| bytes.get(from..to))
        .is_some_and(|text| read_date(text).is_ok_and(|day| calendar.is_open(day)))
}
