ghost use Rattle.std.specs.Prelude.{◌≡◌, [], take, slice_set};
ghost use Rattle.std.specs.List.{remove};
ghost use Rattle.cells.specs.Entries.{entries, room, SameCells, row_answer, insert_answer, insert_after, push_answer, push_after};

use crate::shifts::{insert_into, remove_from};
use crate::{CellList, ListFault};

impl<'a, T: Copy> CellList<'a, T> {
    /// Puts an entry before the one at a row, or last at the row after the last. Whether there is such a row is judged before the room.
    pub fn insert(&mut self, row: usize, entry: T) -> Result<(), ListFault>
        ensures answer { result ≡ insert_answer (room self.old) (entries self.old) row }
        ensures after { entries self.new ≡ insert_after (room self.old) (entries self.old) row entry }
        ensures cells { SameCells self.old self.new }
    {
        let len = self.len();
        if row > len {
            return Err(ListFault::NoSuchRow);
        }
        if len == self.capacity() {
            return Err(ListFault::Full);
        }
        insert_into(self.cells, len, row, entry);
        self.len = len + 1;
        Ok(())
    }

    /// Puts an entry in the place of the one at a row, and answers the one that stood there.
    pub fn replace(&mut self, row: usize, entry: T) -> Result<T, ListFault>
        ensures answer { result ≡ row_answer (entries self.old) row }
        ensures after { entries self.new ≡ slice_set (entries self.old) row entry }
        ensures cells { SameCells self.old self.new }
    {
        if row >= self.len() {
            return Err(ListFault::NoSuchRow);
        }
        let old = self.cells[row];
        self.cells[row] = entry;
        Ok(old)
    }

    /// Takes the entry at a row out, and answers it.
    pub fn remove(&mut self, row: usize) -> Result<T, ListFault>
        ensures answer { result ≡ row_answer (entries self.old) row }
        ensures after { entries self.new ≡ remove (entries self.old) row }
        ensures cells { SameCells self.old self.new }
    {
        let len = self.len();
        if row >= len {
            return Err(ListFault::NoSuchRow);
        }
        let gone = self.cells[row];
        remove_from(self.cells, len, row);
        self.len = len - 1;
        Ok(gone)
    }

    /// Puts an entry last.
    pub fn push(&mut self, entry: T) -> Result<(), ListFault>
        ensures answer { result ≡ push_answer (room self.old) (entries self.old) }
        ensures after { entries self.new ≡ push_after (room self.old) (entries self.old) entry }
        ensures cells { SameCells self.old self.new }
    {
        let row = self.len();
        self.insert(row, entry)
    }

    /// Cuts the list back to a length. One that is not below the present length changes nothing.
    pub fn truncate(&mut self, len: usize)
        ensures after { entries self.new ≡ take len (entries self.old) }
        ensures cells { SameCells self.old self.new }
    {
        self.len = self.len.min(len);
    }

    /// Takes every entry out.
    pub fn clear(&mut self)
        ensures after { entries self.new ≡ [] }
        ensures cells { SameCells self.old self.new }
    {
        self.len = 0;
    }
}
