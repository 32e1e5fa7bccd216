ghost use Rattle.std.specs.Prelude.{◌≡◌, Ok};
ghost use Rattle.terms.specs.Services.{letter_of, service_of};

use crate::InputCause;
use std::fmt;

/// The service that carries a file's payments.
#[derive(Clone, Copy, PartialEq, Eq, Debug)]
pub enum Service {
    /// Bacs credits, `C`.
    Credits,
    /// Bacs debits, `D`.
    Debits,
    /// Faster Payments, `F`.
    FasterPayments,
}

impl Service {
    /// The letter of a service, which names it again.
    // A method: `u8::from(service)` would not say that the byte is the letter.
    pub fn letter(self) -> u8
        ensures value { result ≡ letter_of self }
        ensures back { service_of result ≡ Ok self }
    {
        match self {
            Service::Credits => b'C',
            Service::Debits => b'D',
            Service::FasterPayments => b'F',
        }
    }
}

impl TryFrom<u8> for Service {
    type Error = InputCause;

    ghost try_from_gives = { λ letter r. r ≡ service_of letter };

    /// The service that a letter names; any other byte is none of the listed ones.
    fn try_from(letter: u8) -> Result<Service, InputCause> {
        match letter {
            b'C' => Ok(Service::Credits),
            b'D' => Ok(Service::Debits),
            b'F' => Ok(Service::FasterPayments),
            _ => Err(InputCause::NotListed),
        }
    }
}

impl fmt::Display for Service {
    fn fmt<W: fmt::Write>(&self, f: &mut fmt::Formatter<W>) -> fmt::Result {
        match self {
            Service::Credits => f.write_str("Bacs credits"),
            Service::Debits => f.write_str("Bacs debits"),
            Service::FasterPayments => f.write_str("Faster Payments"),
        }
    }
}
