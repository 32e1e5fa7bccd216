//! Fields at their places in a line: read with their positions, and written from the left.
#![tactic(auto)]

mod field;
mod fixed;
mod given;
mod letters;
mod numbers;
mod puts;

pub use field::{Field, part, said_is_allowed};
pub use fixed::{Fixed, Spaces};
pub use given::{Fixable, Given};
pub use letters::{AnyBytes, BlankOr, DigitsOrSpaces, Filled, FreeFormat, Reference, Serial, Text};
pub use numbers::{Amount, BankDigits, Code, Date, Number, OwnerMark, SmallNumber, usable_day};
pub use puts::{put_bytes, put_day, put_number, put_spaces};
