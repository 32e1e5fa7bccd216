ghost use Rattle.std.specs.Prelude.{◌≤◌};

use fields::Owner;
use labels::Hdr1;

/// What the labels before the batches say.
#[derive(Clone, Copy)]
pub(crate) struct Labels {
    pub(crate) owner: Owner,
    pub(crate) serial: [u8; 6],
    pub(crate) header: Hdr1,
    pub(crate) multi: bool,
    pub(crate) processing: u32,
    pub(crate) number: u32,
    ghost dated: { processing ≤ 36524 },
}
