//! Fields that say a number, a day or a code.
ghost use Rattle.std.specs.Prelude.{◌≡◌, ◌^◌, ◌≤◌, [], cond, Ok, Err};
ghost use Rattle.terms.specs.declared.cause.InputCause.TheVariants.{DayNotOpen, DayOutOfRange};
ghost use Rattle.fields.specs.Words.{amount, code, date, number};
ghost use Rattle.fields.specs.Judging.{code_text, mark_text, marks};

use crate::field::Field;
use days::read_date;
use digits::read_digits;
use fields::{BankNumber, Mark, PaymentCode, read_amount, read_mark};
use terms::{InputCause, Service};

/// A number in so many digits.
#[derive(Clone, Copy)]
pub struct Number {
    pub places: usize,
    ghost few: { places ≤ 19 },
}

impl Field for Number {
    type Said = u64;

    ghost kind = { λ f. number f.places };

    ghost says = { λ _ n. n };

    fn places(&self) -> usize {
        self.places
    }

    fn read(&self, bytes: &[u8]) -> Result<u64, InputCause> {
        read_digits(bytes)
    }
}

/// A number in at most nine digits, which 32 bits hold.
// One type with `Number` over both results would have to refuse a number that its places rule out.
#[derive(Clone, Copy)]
pub struct SmallNumber {
    pub places: usize,
    ghost few: { places ≤ 9 },
}

impl Field for SmallNumber {
    type Said = u32;

    ghost kind = { λ f. number f.places };

    ghost says = { λ _ n. n };

    fn places(&self) -> usize {
        self.places
    }

    fn read(&self, digits: &[u8]) -> Result<u32, InputCause> {
        let number = read_digits(digits)?;
        Ok(number as u32)
    }
}

/// A sort code or an account number, in so many digits.
#[derive(Clone, Copy)]
pub struct BankDigits<const LIMIT: u32> {
    pub places: usize,
    ghost few: { places ≤ 19 },
    ghost all: { LIMIT ≡ 10 ^ places },
}

impl<const LIMIT: u32> Field for BankDigits<LIMIT> {
    type Said = BankNumber<LIMIT>;

    ghost kind = { λ f. number f.places };

    ghost says = { λ _ n. n.value };

    fn places(&self) -> usize {
        self.places
    }

    fn read(&self, bytes: &[u8]) -> Result<BankNumber<LIMIT>, InputCause> {
        BankNumber::read(bytes)
    }
}

/// A day.
#[derive(Clone, Copy)]
pub struct Date;

impl Field for Date {
    type Said = u32;

    ghost kind = { λ _. date [] };

    ghost says = { λ _ d. d };

    fn places(&self) -> usize {
        6
    }

    fn read(&self, bytes: &[u8]) -> Result<u32, InputCause> {
        read_date(bytes)
    }
}

/// A day that was read and is judged: in its time, and open.
pub fn usable_day(day: u32, in_time: bool, open: bool) -> Result<u32, InputCause>
    ensures { result ≡ cond in_time (cond «open» (Ok day) (Err DayNotOpen)) (Err DayOutOfRange) }
{
    if !in_time {
        return Err(InputCause::DayOutOfRange);
    }
    if !open {
        return Err(InputCause::DayNotOpen);
    }
    Ok(day)
}

/// An amount in pence, within the service's limits.
#[derive(Clone, Copy)]
pub struct Amount(pub Service);

impl Field for Amount {
    type Said = u64;

    ghost kind = { λ f. amount f.0 };

    ghost says = { λ _ n. n };

    fn places(&self) -> usize {
        11
    }

    fn read(&self, bytes: &[u8]) -> Result<u64, InputCause> {
        read_amount(self.0, bytes)
    }
}

/// The code of a payment, one of the service's.
#[derive(Clone, Copy)]
pub struct Code(pub Service);

impl Field for Code {
    type Said = PaymentCode;

    ghost kind = { λ f. code f.0 };

    ghost says = { λ _ c. code_text c };

    fn places(&self) -> usize {
        2
    }

    fn read(&self, bytes: &[u8]) -> Result<PaymentCode, InputCause> {
        PaymentCode::read(self.0, bytes)
    }
}

/// A mark in the place of a service user number.
#[derive(Clone, Copy)]
pub struct OwnerMark;

impl Field for OwnerMark {
    type Said = Mark;

    ghost kind = { λ _. marks };

    ghost says = { λ _ m. mark_text m };

    fn places(&self) -> usize {
        6
    }

    fn read(&self, bytes: &[u8]) -> Result<Mark, InputCause> {
        read_mark(bytes)
    }
}
