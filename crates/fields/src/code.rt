ghost use Rattle.std.specs.Prelude.{◌≡◌, map};
ghost use Rattle.std.specs.Result.{result_map_both};
ghost use Rattle.fields.specs.Words.{code, codes_of, contra_code_text};
ghost use Rattle.fields.specs.Judging.{code_text, verdict};
ghost use Rattle.tables.specs.Walks.{reading};

use crate::judging::judged;
use terms::{InputCause, Service};

/// What kind of payment it is.
#[derive(Clone, Copy, PartialEq, Eq, Debug)]
pub enum PaymentCode {
    /// `99`, a credit.
    GiroCredit,
    /// `Z4`, a credit of interest.
    Interest,
    /// `Z5`, a credit of a dividend.
    Dividend,
    /// `01`, the first of a series of direct debits.
    FirstDebit,
    /// `17`, a recurring direct debit.
    RecurringDebit,
    /// `18`, a direct debit that is presented again.
    RepresentedDebit,
    /// `19`, the last of a series of direct debits.
    FinalDebit,
}

impl PaymentCode {
    /// The two characters of the code.
    pub fn text(self) -> [u8; 2]
        ensures { result ≡ code_text self }
    {
        match self {
            PaymentCode::GiroCredit => *b"99",
            PaymentCode::Interest => *b"Z4",
            PaymentCode::Dividend => *b"Z5",
            PaymentCode::FirstDebit => *b"01",
            PaymentCode::RecurringDebit => *b"17",
            PaymentCode::RepresentedDebit => *b"18",
            PaymentCode::FinalDebit => *b"19",
        }
    }

    /// The code that two characters say, if the service has it.
    pub fn read(service: Service, field: &[u8]) -> Result<PaymentCode, InputCause>
        ensures { result_map_both code_text (λ e. e) result ≡ reading (code service) field.now }
    {
        codes_of(service)
            .iter()
            .find(|code| field == code.text().as_slice())
            .copied()
            .ok_or(InputCause::WrongCode)
    }

    /// Judges whether the service has the code.
    pub fn judge(self, service: Service) -> Result<(), InputCause>
        ensures { result ≡ verdict (code service) (code_text self) }
    {
        let had = Self::read(service, &self.text()).is_ok();
        judged(had, InputCause::WrongCode)
    }
}

/// The codes of a service: `99`, `Z4` and `Z5` for credits and Faster Payments, the others for debits.
fn codes_of(service: Service) -> &'static [PaymentCode]
    ensures { map code_text result.now ≡ codes_of service }
{
    match service {
        Service::Debits => &[
            PaymentCode::FirstDebit,
            PaymentCode::RecurringDebit,
            PaymentCode::RepresentedDebit,
            PaymentCode::FinalDebit,
        ],
        _ => &[
            PaymentCode::GiroCredit,
            PaymentCode::Interest,
            PaymentCode::Dividend,
        ],
    }
}

/// The code of a contra.
pub fn contra_code(service: Service) -> [u8; 2]
    ensures { result ≡ contra_code_text service }
{
    match service {
        Service::Debits => *b"99",
        _ => *b"17",
    }
}
