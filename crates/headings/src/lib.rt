//! What a file says: its heading and its payments, as values; and why a call is refused.
#![tactic(auto)]

mod heading;
mod refusal;
mod row;

pub use heading::Heading;
pub use refusal::Refusal;
pub use row::Row;
