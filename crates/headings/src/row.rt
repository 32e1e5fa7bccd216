use fields::{AccountNumber, PaymentCode, SortCode};

/// A payment. The originator is the heading's; the day is that of the payment's batch, in a single-day file the processing day.
// Not the record's `DatedPayment`: that holds the originator too, which is the same in all rows, so that each would hold it again.
#[derive(Clone, Copy)]
pub struct Row {
    pub sort_code: SortCode,
    pub account: AccountNumber,
    pub code: PaymentCode,
    /// Spaces or, for service C, a slash and three characters.
    pub free_format: [u8; 4],
    /// In pence.
    pub amount: u64,
    pub reference: [u8; 18],
    pub name: [u8; 18],
    pub day: u32,
}
