ghost use Rattle.std.specs.Prelude.{◌≡◌, ◌<◌, ◌≤◌, IfOk, Ok};
ghost use Rattle.days.specs.Dates.{dated, date_reading, date_text, date_writing, DateLaws, DateSamples};

use crate::Year;
use digits::{put_digits, read_digits};
use terms::InputCause;

/// The number of the day that a text names: a space, two digits of the year and three of the day of the year.
/// Every fault of its form, a wrong length too, is that it is no date.
pub fn read_date(text: &[u8]) -> Result<u32, InputCause>
    ensures value { result ≡ date_reading text.now }
    ensures only_text { IfOk result (λ d. (d ≤ 36524) × (text.now ≡ date_text d)) }
{
    if text.len() != 6 || text[0] != b' ' {
        return Err(InputCause::NoDate);
    }
    let number = read_digits(&text[1..]).map_err(|_| InputCause::NoDate)?;
    // Five digits fit into 32 bits.
    day_of_year(number as u32)
}

/// The day that the five digits of a date name: the thousands are the year, the rest is the day of the year.
fn day_of_year(number: u32) -> Result<u32, InputCause>
    requires { number < 100000 }
    ensures { result ≡ dated number }
{
    let year = Year::new(number / 1000)?;
    let place = number % 1000;
    if !(1..=year.length()).contains(&place) {
        return Err(InputCause::NoDate);
    }
    Ok(year.first_day() + place - 1)
}

/// The six bytes of a day, which are read as that day. A number above 36,524 is no day.
pub fn write_date(day: u32) -> Result<[u8; 6], InputCause>
    ensures value { result ≡ date_writing day }
    ensures reads_back { IfOk result (λ text. date_reading text ≡ Ok day) }
{
    let year = Year::of_day(day)?;
    let place = day - year.first_day() + 1;
    let mut text = [b' '; 6];
    put_digits(&mut text[1..], (1000 * year.number() + place) as u64);
    Ok(text)
}

/// A written day reads as itself; what is read as a day has exactly one text; the days read are exactly 0 to 36,524.
pub fn date_laws_hold()
    ensures { DateLaws }
{}

/// Some dates with their days.
pub fn date_samples_hold()
    ensures { DateSamples }
{}
