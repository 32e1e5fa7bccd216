use cells::{CellList, ListFault};
use std::process::Abort;

/// Checks that a list holds exactly these entries.
fn holds(rt: &impl Abort, list: &CellList<'_, u32>, wanted: &[u32]) {
    assert_eq!(rt; list.len(), wanted.len());
    for (row, entry) in wanted.iter().enumerate() {
        assert!(rt; list.get(row) == Some(*entry));
    }
    assert!(rt; list.get(wanted.len()) == None);
}

#[test]
fn no_cells(rt: HostRuntime) {
    let mut cells = [0u32; 0];
    let mut list = CellList::over(&mut cells);
    assert!(rt; list.capacity() == 0 && list.is_empty());
    assert!(rt; list.push(1) == Err(ListFault::Full));
    assert!(rt; list.insert(0, 1) == Err(ListFault::Full));
    assert!(rt; list.insert(1, 1) == Err(ListFault::NoSuchRow));
    assert!(rt; list.remove(0) == Err(ListFault::NoSuchRow));
    holds(&rt, &list, &[]);
}

#[test]
fn one_cell(rt: HostRuntime) {
    let mut cells = [7u32; 1];
    let mut list = CellList::over(&mut cells);
    assert!(rt; list.is_empty() && list.get(0) == None);
    assert!(rt; list.push(1) == Ok(()));
    assert!(rt; list.push(2) == Err(ListFault::Full));
    assert!(rt; list.insert(0, 2) == Err(ListFault::Full));
    holds(&rt, &list, &[1]);
    assert!(rt; list.replace(0, 3) == Ok(1));
    assert!(rt; list.remove(0) == Ok(3));
    holds(&rt, &list, &[]);
}

#[test]
fn edits_in_the_middle(rt: HostRuntime) {
    let mut cells = [0u32; 5];
    let mut list = CellList::over(&mut cells);
    assert!(rt; list.push(1) == Ok(()));
    assert!(rt; list.push(3) == Ok(()));
    assert!(rt; list.insert(1, 2) == Ok(()));
    assert!(rt; list.insert(3, 4) == Ok(()));
    assert!(rt; list.insert(0, 9) == Ok(()));
    holds(&rt, &list, &[9, 1, 2, 3, 4]);
    assert!(rt; list.remove(1) == Ok(1));
    holds(&rt, &list, &[9, 2, 3, 4]);
    assert!(rt; list.replace(3, 8) == Ok(4));
    holds(&rt, &list, &[9, 2, 3, 8]);
}

#[test]
fn refusals_leave_the_entries(rt: HostRuntime) {
    let mut cells = [0u32; 3];
    let mut list = CellList::over(&mut cells);
    assert!(rt; list.push(1) == Ok(()));
    assert!(rt; list.push(2) == Ok(()));
    assert!(rt; list.insert(3, 5) == Err(ListFault::NoSuchRow));
    assert!(rt; list.replace(2, 5) == Err(ListFault::NoSuchRow));
    assert!(rt; list.remove(2) == Err(ListFault::NoSuchRow));
    holds(&rt, &list, &[1, 2]);
}

#[test]
fn cutting_back(rt: HostRuntime) {
    let mut cells = [0u32; 4];
    let mut list = CellList::over(&mut cells);
    assert!(rt; list.push(1) == Ok(()));
    assert!(rt; list.push(2) == Ok(()));
    assert!(rt; list.push(3) == Ok(()));
    list.truncate(5);
    holds(&rt, &list, &[1, 2, 3]);
    list.truncate(1);
    holds(&rt, &list, &[1]);
    assert!(rt; list.push(4) == Ok(()));
    holds(&rt, &list, &[1, 4]);
    list.clear();
    holds(&rt, &list, &[]);
}

/// Fills a list over these cells, and answers how many entries it took.
fn fill(rt: &impl Abort, cells: &mut [u32]) -> usize {
    let mut list = CellList::over(cells);
    let room = list.capacity();
    for entry in 0..room {
        assert!(rt; list.len() == entry);
        assert!(rt; list.push(7) == Ok(()));
    }
    assert!(rt; list.push(8) == Err(ListFault::Full));
    assert!(rt; list.insert(0, 8) == Err(ListFault::Full));
    list.len()
}

#[test]
fn four_thousand_cells_and_more(rt: HostRuntime) {
    assert_eq!(rt; fill(&rt, &mut [0u32; 3999]), 3999);
    assert_eq!(rt; fill(&rt, &mut [0u32; 4000]), 4000);
    assert_eq!(rt; fill(&rt, &mut [0u32; 4001]), 4000);
    assert_eq!(rt; fill(&rt, &mut [0u32; 5000]), 4000);
}
