//! The records of a batch: payments, and the contra that ends it.
#![tactic(auto, using(places::proofs::Fronting::front_none, places::proofs::Fronting::front_all))]

mod account;
mod contra;
mod contra_line;
mod dated;
mod fixing;
mod payment;
mod payment_line;

pub use contra::{Contra, ContraContext, DatedContraContext};
pub use contra_line::{ContraRecord, DatedContraRecord, is_contra};
pub use dated::Dated;
pub use payment::{
    DatedPayment, DatedPaymentContext, DayRule, Originator, Payment, PaymentContext,
};
pub use payment_line::{DatedPaymentRecord, PaymentRecord};
