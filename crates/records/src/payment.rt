use crate::Dated;
use fields::{AccountNumber, PaymentCode, SortCode};
use terms::Service;

/// Whose account the payments of a file are set against.
#[derive(Clone, Copy)]
pub struct Originator {
    // Sort code and account are two fields of the format, each judged and refused by itself, so they are two here and wherever they stand together.
    pub sort_code: SortCode,
    pub account: AccountNumber,
    pub name: [u8; 18],
}

/// What a payment record says.
#[derive(Clone, Copy)]
pub struct Payment {
    pub sort_code: SortCode,
    pub account: AccountNumber,
    pub code: PaymentCode,
    pub free_format: [u8; 4],
    /// In pence.
    pub amount: u64,
    pub reference: [u8; 18],
    pub name: [u8; 18],
    pub originator: Originator,
}

/// What a payment record of a multi-day file says.
pub type DatedPayment = Dated<Payment, u32>;

/// What a payment record of a multi-day file may have as its day.
#[derive(Clone, Copy)]
pub enum DayRule {
    /// The day that the batch's first payment fixes.
    Fixed(u32),
    /// In a batch's first payment: a day in the range, of which the caller has looked up whether it is open.
    // The answer and no day with it: the day stands in the line, which is judged after this is made.
    Range { first: u32, last: u32, open: bool },
}

/// What a payment record is judged by: no originator is fixed before the file's first payment.
#[derive(Clone, Copy)]
pub struct PaymentContext {
    pub service: Service,
    pub originator: Option<Originator>,
}

/// What a payment record of a multi-day file is judged by.
pub type DatedPaymentContext = Dated<PaymentContext, DayRule>;
