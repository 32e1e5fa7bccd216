//! The parts of each line of a Bacs Standard 18 file, as slices of the caller's bytes, and a table of every field for people.
#![tactic(auto)]

mod kind;
mod line;
mod places;
mod records;

pub use kind::LineKind;
pub use line::{LineParts, line_parts};
pub use places::{FieldPlaces, field_at};
