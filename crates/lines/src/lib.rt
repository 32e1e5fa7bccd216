//! Lines of a file: what is wrong with one and where, and one reader and one writer for every kind of line.
#![tactic(auto)]

mod fault;
mod line;
mod telling;

pub use fault::{Fault, FieldFault, FileFault, Layer, LineFault};
pub use line::{Line, lines_are_read_by_table, read_line, write_line};
pub use telling::layer_of;
