//! Cells that move by one to make room for an entry, or to fill the place of one. Each moves once.
ghost use Rattle.std.specs.Prelude.{◌≡◌, ◌+◌, ◌-◌, ◌<◌, ◌≤◌, length, take};
ghost use Rattle.std.specs.List.{insert, remove};

/// Puts an entry at a row among the first `len` cells. Those from the row on move up.
pub(crate) fn insert_into<T: Copy>(cells: &mut [T], len: usize, row: usize, entry: T)
    requires within { row ≤ len }
    requires room { len < length cells.old }
    ensures size { length cells.new ≡ length cells.old }
    ensures after { take (len + 1) cells.new ≡ insert (take len cells.old) row entry }
{
    cells.copy_within(row..len, row + 1);
    cells[row] = entry;
}

/// Takes the entry at a row out of the first `len` cells. Those after the row move down.
pub(crate) fn remove_from<T: Copy>(cells: &mut [T], len: usize, row: usize)
    requires within { row < len }
    requires room { len ≤ length cells.old }
    ensures size { length cells.new ≡ length cells.old }
    ensures after { take (len - 1) cells.new ≡ remove (take len cells.old) row }
{
    cells.copy_within(row + 1..len, row);
}
