ghost use Rattle.std.specs.Prelude.{◌≡◌};
ghost use Rattle.fields.specs.Words.{good_amount, highest};
ghost use Rattle.fields.specs.Judging.{amount_reading, amount_verdict};

use crate::judging::judged;
use digits::read_digits;
use terms::{InputCause, Service};

/// The highest amount of a payment, in pence.
fn highest_amount(service: Service) -> u64
    ensures { result ≡ highest service }
{
    match service {
        Service::FasterPayments => 25_000_000,
        _ => 2_000_000_000,
    }
}

/// Whether an amount in pence lies within the service's limits.
fn is_good_amount(service: Service, pence: u64) -> bool
    ensures { result ≡ good_amount service pence }
{
    (1..=highest_amount(service)).contains(&pence)
}

/// Judges an amount in pence: above eleven digits it is too large for its places, else it lies within the service's limits.
pub fn judge_amount(service: Service, pence: u64) -> Result<(), InputCause>
    ensures { result ≡ amount_verdict service pence }
{
    judged(pence <= 99_999_999_999, InputCause::NotANumber)?;
    judged(is_good_amount(service, pence), InputCause::WrongAmount)
}

/// The amount that digits of pence say, within the service's limits.
pub fn read_amount(service: Service, field: &[u8]) -> Result<u64, InputCause>
    ensures { result ≡ amount_reading service field.now }
{
    let pence = read_digits(field)?;
    judged(is_good_amount(service, pence), InputCause::WrongAmount)?;
    Ok(pence)
}
