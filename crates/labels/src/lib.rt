//! The labels before the batches of a file: VOL1, HDR1, HDR2 and UHL1.
#![tactic(auto, using(places::proofs::Fronting::front_none, places::proofs::Fronting::front_all))]

mod header;
mod header_line;
mod header_two;
mod user;
mod user_line;
mod volume;
mod volume_line;

pub use header::{Hdr1, Hdr1Context, Hdr1Free, Hdr2, Hdr2Context};
pub use header_line::{Hdr1Label, owner_places};
pub use header_two::{Hdr2Label, record_length};
pub use user::{Uhl1, Uhl1Context};
pub use user_line::{Uhl1Label, is_in_order, work_code};
pub use volume::Vol1;
pub use volume_line::Vol1Label;
