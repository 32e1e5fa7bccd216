ghost use Rattle.std.specs.Prelude.{◌≡◌, ◌<◌};
ghost use Rattle.std.specs.Result.{result_map_both};
ghost use Rattle.fields.specs.Judging.{number_making, number_reading};

use digits::read_digits;
use std::fmt;
use terms::InputCause;

/// A number at a bank, below a limit.
#[derive(Clone, Copy, PartialEq, Eq)]
pub struct BankNumber<const LIMIT: u32> {
    value: u32,
    ghost bound: { value < LIMIT },
}

/// A sort code: a number of at most six digits.
pub type SortCode = BankNumber<1_000_000>;

/// An account number: a number of at most eight digits.
pub type AccountNumber = BankNumber<100_000_000>;

impl<const LIMIT: u32> BankNumber<LIMIT> {
    /// The sort code or account of a number; one from the limit on is too large.
    pub fn new(value: u32) -> Result<BankNumber<LIMIT>, InputCause>
        ensures { result_map_both (λ n. n.value) (λ e. e) result ≡ number_making LIMIT value }
    {
        if value >= LIMIT {
            return Err(InputCause::NotANumber);
        }
        Ok(BankNumber { value })
    }

    /// The sort code or account that digits say.
    pub fn read(field: &[u8]) -> Result<BankNumber<LIMIT>, InputCause>
        ensures { result_map_both (λ n. n.value) (λ e. e) result ≡ number_reading LIMIT field.now }
    {
        let number = read_digits(field)?;
        let value = u32::try_from(number).map_err(|_| InputCause::NotANumber)?;
        Self::new(value)
    }

    /// The number itself.
    pub fn number(self) -> u32
        ensures { result ≡ self.entry.value }
    {
        self.value
    }
}

// Derived, it would print a sort code and an account number under one name.
impl<const LIMIT: u32> fmt::Debug for BankNumber<LIMIT> {
    fn fmt<W: fmt::Write>(&self, f: &mut fmt::Formatter<W>) -> fmt::Result {
        let name = match LIMIT {
            1_000_000 => "SortCode",
            100_000_000 => "AccountNumber",
            _ => "BankNumber",
        };
        f.debug_struct(name).field("value", &self.number()).finish()
    }
}
