//! Fields of a record that earlier records may fix.
//! The originator's three parts and the narrative ask alike whether one is fixed. One wrapper over any field and an optional value was tried: the table's kind
//! is then stuck at `option_map` of the value, which proofs of whole lines cannot see through.
ghost use Rattle.places.specs.Given.{text_given};
ghost use Rattle.std.specs.Prelude.{◌≡◌};
ghost use Rattle.records.specs.Payments.{fixed_account, in_range, fixed_name, fixed_sort_code, ranged_day, record_day};

use crate::{DayRule, Originator};
use fields::{AccountNumber, SortCode};
use places::{BankDigits, Date, Field, Filled, Given, Text, usable_day};
use terms::{InputCause, Service};

/// The originator's sort code.
#[derive(Clone, Copy)]
pub(crate) struct OriginatorSortCode(pub(crate) Option<Originator>);

impl Field for OriginatorSortCode {
    type Said = SortCode;

    ghost kind = { λ f. fixed_sort_code f.0 };

    ghost says = { λ _ n. n.value };

    fn places(&self) -> usize {
        6
    }

    fn read(&self, bytes: &[u8]) -> Result<SortCode, InputCause> {
        let digits = BankDigits { places: 6 };
        match &self.0 {
            Some(fixed) => Given(digits, fixed.sort_code).read(bytes),
            None => digits.read(bytes),
        }
    }
}

/// The originator's account number.
#[derive(Clone, Copy)]
pub(crate) struct OriginatorAccount(pub(crate) Option<Originator>);

impl Field for OriginatorAccount {
    type Said = AccountNumber;

    ghost kind = { λ f. fixed_account f.0 };

    ghost says = { λ _ n. n.value };

    fn places(&self) -> usize {
        8
    }

    fn read(&self, bytes: &[u8]) -> Result<AccountNumber, InputCause> {
        let digits = BankDigits { places: 8 };
        match &self.0 {
            Some(fixed) => Given(digits, fixed.account).read(bytes),
            None => digits.read(bytes),
        }
    }
}

/// The originator's name.
#[derive(Clone, Copy)]
pub(crate) struct OriginatorName {
    pub(crate) service: Service,
    pub(crate) originator: Option<Originator>,
}

impl Field for OriginatorName {
    type Said = [u8; 18];

    ghost kind = { λ f. fixed_name f.service f.originator };

    ghost says = { λ _ v. v };

    fn places(&self) -> usize {
        18
    }

    fn read(&self, bytes: &[u8]) -> Result<[u8; 18], InputCause> {
        let text = Filled(self.service);
        match &self.originator {
            Some(fixed) => Given(text, fixed.name).read(bytes),
            None => text.read(bytes),
        }
    }
}

/// The narrative of a contra, which an earlier contra may fix.
#[derive(Clone, Copy)]
pub(crate) struct Narrative {
    pub(crate) service: Service,
    pub(crate) narrative: Option<[u8; 18]>,
}

impl Field for Narrative {
    type Said = [u8; 18];

    ghost kind = { λ f. text_given f.service f.narrative };

    ghost says = { λ _ v. v };

    fn places(&self) -> usize {
        18
    }

    fn read(&self, bytes: &[u8]) -> Result<[u8; 18], InputCause> {
        let text = Text(self.service);
        match &self.narrative {
            Some(fixed) => Given(text, *fixed).read(bytes),
            None => text.read(bytes),
        }
    }
}

/// The day of a payment: the one that is fixed, or one of a range that is open.
#[derive(Clone, Copy)]
pub(crate) struct RecordDay(pub(crate) DayRule);

impl Field for RecordDay {
    type Said = u32;

    ghost kind = { λ f. record_day f.0 };

    ghost says = { λ _ d. d };

    fn places(&self) -> usize {
        6
    }

    fn read(&self, bytes: &[u8]) -> Result<u32, InputCause> {
        match self.0 {
            DayRule::Fixed(day) => Given(Date, day).read(bytes),
            DayRule::Range { first, last, open } => RangedDay { first, last, open }.read(bytes),
        }
    }
}

/// A day from the first to the last, which is open: the second form of a `DayRule`, as a field of its own.
#[derive(Clone, Copy)]
struct RangedDay {
    first: u32,
    last: u32,
    open: bool,
}

impl Field for RangedDay {
    type Said = u32;

    ghost kind = { λ f. ranged_day f.first f.last f.«open» };

    ghost says = { λ _ d. d };

    fn places(&self) -> usize {
        6
    }

    fn read(&self, bytes: &[u8]) -> Result<u32, InputCause> {
        let day = Date.read(bytes)?;
        usable_day(day, is_between(self.first, self.last, day), self.open)
    }
}

fn is_between(first: u32, last: u32, day: u32) -> bool
    ensures { result ≡ in_range first last day }
{
    first <= day && day <= last
}
