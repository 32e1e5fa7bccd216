//! The labels after the batches of a file: EOF1, EOF2 and UTL1. They repeat what the labels before the batches say, and add up the file.
#![tactic(auto, using(places::proofs::Fronting::front_none, places::proofs::Fronting::front_all))]

mod closing;
mod closing_line;
mod repeat_line;

pub use closing::{Eof1Context, Utl1Context};
pub use closing_line::{Eof2Label, Utl1Label};
pub use repeat_line::Eof1Label;
