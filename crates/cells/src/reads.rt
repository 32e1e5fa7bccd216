ghost use Rattle.std.specs.Prelude.{◌≡◌, ◌≤◌, min, [], length, take, ◌==◌};
ghost use Rattle.std.specs.List.{slice_get};
ghost use Rattle.cells.specs.Entries.{entries, room};

use crate::{CellList, MOST_ENTRIES};

impl<'a, T: Copy> CellList<'a, T> {
    /// A list without entries over the cells, which are left as they are.
    pub fn over(cells: &'a mut [T]) -> CellList<'a, T>
        ensures none { entries result ≡ [] }
        ensures room { room result ≡ min (length cells.old) 4000 }
        ensures lent { result.cells.ghost_name ≡ cells.entry.ghost_name }
        ensures same { result.cells.now ≡ cells.old }
    {
        CellList { cells, len: 0 }
    }

    /// How many entries there are. The count is cut to the room here, so that nothing else has to rely on it.
    pub fn len(&self) -> usize
        ensures value { result ≡ length (entries self.now) }
        ensures bound { result ≤ room self.now }
        ensures rows { entries self.now ≡ take result self.now.cells.now }
    {
        self.len.min(self.capacity())
    }

    /// How many entries there is room for, in all.
    pub fn capacity(&self) -> usize
        ensures { result ≡ room self.now }
    {
        self.cells.len().min(MOST_ENTRIES)
    }

    /// Whether there is no entry.
    pub fn is_empty(&self) -> bool
        ensures { result ≡ (length (entries self.now) == 0) }
    {
        self.len() == 0
    }

    /// The entry at a row, if there is one.
    pub fn get(&self, row: usize) -> Option<T>
        ensures { result ≡ slice_get (entries self.now) row }
    {
        self.cells[..self.len()].get(row).copied()
    }
}
