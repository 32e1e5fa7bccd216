use crate::{Dated, Originator};
use terms::Service;

/// What a contra record says that its batch does not.
#[derive(Clone, Copy)]
pub struct Contra {
    pub narrative: [u8; 18],
}

/// What a contra record is judged by: the file's originator, the batch's total in pence, and the narrative that an earlier contra fixes.
#[derive(Clone, Copy)]
pub struct ContraContext {
    pub service: Service,
    pub originator: Originator,
    pub total: u64,
    pub narrative: Option<[u8; 18]>,
}

/// What a contra record of a multi-day file is judged by: the batch's day too.
pub type DatedContraContext = Dated<ContraContext, u32>;
