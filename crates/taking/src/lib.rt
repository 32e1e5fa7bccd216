//! One line read at the front of the bytes of a file, and which line comes next.
#![tactic(auto)]

mod expected;
mod taken;

pub use expected::{Expected, Progress, expect_line};
pub use taken::{opens_day_at, take_line};
