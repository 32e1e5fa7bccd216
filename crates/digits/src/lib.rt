//! Numbers in decimal digits, zeros in front, in a fixed number of places.
#![tactic(auto)]

ghost use Rattle.std.specs.Prelude.{◌≡◌, ◌^◌, ◌<◌, length, IfOk};
ghost use Rattle.digits.specs.Decimal.{decimal, digits_reading, DigitLaws};

use terms::InputCause;

/// As many digits as every number of 64 bits holds.
pub const MOST_DIGITS: usize = 19;

/// The number that a field of digits says. Any other byte, or a field of more than 19 places, is refused.
pub fn read_digits(field: &[u8]) -> Result<u64, InputCause>
    ensures value { result ≡ digits_reading field.now }
    ensures bound { IfOk result (λ n. n < 10 ^ length field.now) }
{
    if field.len() > MOST_DIGITS {
        return Err(InputCause::NotANumber);
    }
    let mut n: u64 = 0;
    for b in field {
        if !b.is_ascii_digit() {
            return Err(InputCause::NotANumber);
        }
        n = n * 10 + (*b - b'0') as u64;
    }
    Ok(n)
}

/// Fills the places with the last digits of a number: a field's judgement comes first and refuses a number that is too large.
pub fn put_digits(out: &mut [u8], n: u64)
    ensures { out.new ≡ decimal (length out.old) n }
{
    let mut rest = n;
    // The last digit comes first, and all are turned round at the end. `iter_mut().rev()` was tried: the check knows nothing
    // of what the places hold afterwards.
    for place in out.iter_mut() {
        // A digit, so it fits into a byte.
        *place = b'0' + (rest % 10) as u8;
        rest /= 10;
    }
    out.reverse();
}

/// What is written of a number that fits is read as that number, and digits that are read are what is written of their number.
pub fn digit_laws_hold()
    ensures { DigitLaws }
{}
