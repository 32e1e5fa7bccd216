//! Fields that earlier lines may fix. Where they do, the field is compared and has one fault.
ghost use Rattle.std.specs.Prelude.{◌≡◌, length};
ghost use Rattle.places.specs.Given.{given, given_value, value_stands};
ghost use Rattle.tables.specs.Kinds.{width};

use crate::field::Field;
use crate::fixed::Fixed;
use crate::letters::{AnyBytes, Filled, Text};
use crate::numbers::{BankDigits, Date, Number};
use days::read_date;
use digits::read_digits;
use fields::BankNumber;
use terms::InputCause;

/// A kind of field that earlier lines may fix.
pub trait Fixable: Field {
    /// Whether the bytes of the field say this value.
    fn stands(&self, bytes: &[u8], value: &Self::Said) -> bool
        requires { length bytes.now ≡ width (Self.kind self.now) }
        ensures { result ≡ value_stands (Self.kind self.now) (Self.says self.now value.now) bytes.now };
}

/// A field with the value that earlier lines fix.
#[derive(Clone, Copy)]
pub struct Given<F, V>(pub F, pub V);

impl<F: Fixable> Field for Given<F, F::Said>
where
    F::Said: Copy,
{
    type Said = F::Said;

    ghost kind = { λ f. given (F.kind f.0) (F.says f.0 f.1) };

    ghost says = { λ f v. given_value (F.kind f.0) (F.says f.0 f.1) (F.says f.0 v) };

    fn places(&self) -> usize {
        self.0.places()
    }

    fn read(&self, bytes: &[u8]) -> Result<F::Said, InputCause> {
        if self.0.stands(bytes, &self.1) {
            Ok(self.1)
        } else {
            Err(InputCause::Differs)
        }
    }
}

impl<'a> Fixable for Fixed<'a> {
    fn stands(&self, bytes: &[u8], _value: &()) -> bool {
        bytes == self.0
    }
}

impl<const N: usize> Fixable for AnyBytes<N> {
    fn stands(&self, bytes: &[u8], value: &[u8; N]) -> bool {
        bytes == value.as_slice()
    }
}

impl Fixable for Filled {
    fn stands(&self, bytes: &[u8], value: &[u8; 18]) -> bool {
        AnyBytes.stands(bytes, value)
    }
}

impl Fixable for Text {
    fn stands(&self, bytes: &[u8], value: &[u8; 18]) -> bool {
        Filled(self.0).stands(bytes, value)
    }
}

impl Fixable for Number {
    fn stands(&self, bytes: &[u8], value: &u64) -> bool {
        read_digits(bytes) == Ok(*value)
    }
}

impl<const LIMIT: u32> Fixable for BankDigits<LIMIT> {
    fn stands(&self, bytes: &[u8], value: &BankNumber<LIMIT>) -> bool {
        read_digits(bytes) == Ok(value.number() as u64)
    }
}

impl Fixable for Date {
    fn stands(&self, bytes: &[u8], value: &u32) -> bool {
        read_date(bytes) == Ok(*value)
    }
}
