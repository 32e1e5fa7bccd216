//! The fields of a line: what each may hold, judged and read from its bytes, and how it is written.
#![tactic(auto)]

mod amount;
mod bank;
mod character;
mod code;
mod judging;
mod laws;
mod listed;
mod owner;
mod serial;
mod text;

pub use amount::{judge_amount, read_amount};
pub use bank::{AccountNumber, BankNumber, SortCode};
pub use character::{allows, is_plain, is_sign};
pub use code::{PaymentCode, contra_code};
pub use laws::{field_samples_hold, fields_read_back};
pub use listed::{
    judge_blank_or, judge_digits_or_spaces, judge_fixed, judge_free_format, judge_spaces,
};
pub use owner::{Mark, Owner, read_mark};
pub use serial::judge_serial;
pub use text::{judge_filled, judge_reference, judge_text};
