//! A list that lies in cells which its caller lends: whoever owns the memory says how many entries there may be.
#![tactic(auto)]

mod edits;
mod fault;
mod laws;
mod reads;
mod shifts;

pub use fault::ListFault;
pub use laws::list_laws_hold;

/// No list holds more entries than this, however many cells it is lent.
pub const MOST_ENTRIES: usize = 4000;

/// A list in lent cells. It holds as many entries as there are cells, and 4,000 at most.
///
/// The entries stand in the first cells, in their order. What the cells behind them hold is free: a call may leave anything there, and none reads it.
#[derive(Drop)]
pub struct CellList<'a, T> {
    // A count beside the cells: whoever calls lends the memory, so no type with a room of its own can stand here.
    cells: &'a mut [T],
    len: usize,
}
